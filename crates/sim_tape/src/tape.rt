// A tape that grows gate by gate.

ghost use Rattle.std.specs.Prelude.{◌≡◌, ◌⊎◌, ◌+◌, ◌*◌, ◌<◌, ◌≤◌, ◌^◌, true, length, IfOk, IfSome, OnOk};
ghost use Rattle.sim_tape.specs.declared.gates.Operator.TheVariants as operators;
ghost use Rattle.sim_tape.specs.declared.gates.Rule.TheVariants as rules;
ghost use Rattle.vlog_tree.specs.Cycle.{op_value};
ghost use Rattle.sim_tape.specs.Operators.{operator_value};
ghost use Rattle.sim_tape.specs.Tape.{gate_at, number_at, pair_value, wide_at, wide_value, Extends, HasGate, IsTape, PairBefore, ReadsBefore, WideBefore};
ghost use Rattle.sim_tape.specs.Solved.{Says};
ghost use Rattle.sim_tape.specs.Trees.{tree_of};

use crate::gates::{Gate, Operator, Pair, Rule, Wide};
use std::alloc::{AllocError, Global};
use std::collections::HashMap;
use vlog_tree::BinaryOp;

/// The gates of slots 0, 1, 2 and so on, each reading slots before its own, the wide operators, and where constants and gates of
/// operators are, so that none of them is made twice. Slot 0 is the constant 0.
#[derive(Drop)]
pub struct Tape {
    gates: Vec<Gate>,
    wides: Vec<Wide>,
    known: HashMap<Gate, u32>,
}

// The low 32 bits of a number, and those above.
fn halves(n: u64) -> (u32, u32)
    ensures { result.1 * 2 ^ 32 + result.0 ≡ n }
{
    ((n % (1 << 32)) as u32, (n / (1 << 32)) as u32)
}

fn constant_gate(n: u64) -> Gate
    ensures rule { result.rule ≡ rules.Constant }
    ensures value { result.b * 2 ^ 32 + result.a ≡ n }
{
    let (a, b) = halves(n);
    Gate {
        rule: Rule::Constant,
        a,
        b,
        c: 0,
    }
}

fn has_gate(gates: &[Gate], slot: u32, gate: &Gate) -> bool
    ensures within { result ≡ true → slot < length gates.now }
    ensures found { result ≡ true → gate_at gates.now slot ≡ gate.now }
{
    let slot = slot as usize;
    slot < gates.len() && gates[slot] == *gate
}

// The other slot of an `or` with slot 0, which needs no gate.
fn plain_or(operator: Operator, a: u32, b: u32) -> Option<u32>
    ensures { IfSome result (λ s. (operator ≡ operators.Or) × (((a ≡ 0) × (s ≡ b)) ⊎ ((b ≡ 0) × (s ≡ a)))) }
{
    if operator != Operator::Or {
        return None;
    }
    if a == 0 {
        return Some(b);
    }
    if b == 0 {
        return Some(a);
    }
    None
}

impl Tape {
    /// A tape with slot 0 alone.
    pub fn new(alloc: Global) -> Result<Tape, AllocError>
        ensures { IfOk result (λ t. IsTape (tree_of t)) }
    {
        let mut gates = Vec::new(alloc);
        gates.push(Gate {
            rule: Rule::Constant,
            a: 0,
            b: 0,
            c: 0,
        })?;
        Ok(Tape {
            gates,
            wides: Vec::new(alloc),
            known: HashMap::new(alloc),
        })
    }

    /// How many slots there are.
    pub fn len(&self) -> usize
        ensures { result ≡ length self.now.gates.items }
    {
        self.gates.len()
    }

    /// The gates of all slots.
    pub fn gates(&self) -> &[Gate]
        ensures { result.now ≡ (tree_of self.now).gates }
    {
        &self.gates
    }

    /// The wide operators.
    pub fn wides(&self) -> &[Wide]
        ensures { result.now ≡ (tree_of self.now).wides }
    {
        &self.wides
    }

    /// A slot with a gate that reads slots before it; it is new.
    pub fn push(&mut self, gate: Gate) -> Result<u32, AllocError>
        requires tape { IsTape (tree_of self.old) }
        requires reads { ReadsBefore self.old.wides.items (length self.old.gates.items) gate }
        ensures extends { Extends (tree_of self.old) (tree_of self.new) }
        ensures slot { IfOk result (λ s. HasGate (tree_of self.new) s gate) }
        ensures wides { self.new.wides.items ≡ self.old.wides.items }
        ensures fresh { IfOk result (λ s. s ≡ length self.old.gates.items) }
    {
        let slot = self.gates.len();
        if slot >= u32::MAX as usize {
            return Err(AllocError);
        }
        self.gates.push(gate)?;
        Ok(slot as u32)
    }

    /// A slot of its own whose number is given from outside.
    pub fn given(&mut self) -> Result<u32, AllocError>
        requires { IsTape (tree_of self.old) }
        ensures extends { Extends (tree_of self.old) (tree_of self.new) }
        ensures slot { IfOk result (λ s. s < length self.new.gates.items) }
        ensures given { IfOk result (λ s. (gate_at self.new.gates.items s).rule ≡ rules.Given) }
        ensures fresh { IfOk result (λ s. s ≡ length self.old.gates.items) }
    {
        self.push(Gate {
            rule: Rule::Given,
            a: 0,
            b: 0,
            c: 0,
        })
    }

    // A slot with a gate that reads slots before it: one that has it already, or a new one.
    fn share(&mut self, gate: Gate) -> Result<u32, AllocError>
        requires tape { IsTape (tree_of self.old) }
        requires reads { ReadsBefore self.old.wides.items (length self.old.gates.items) gate }
        ensures extends { Extends (tree_of self.old) (tree_of self.new) }
        ensures slot { IfOk result (λ s. HasGate (tree_of self.new) s gate) }
    {
        if let Some(slot) = self.known.get(&gate).copied() {
            if has_gate(&self.gates, slot, &gate) {
                return Ok(slot);
            }
        }
        let slot = self.push(gate)?;
        self.known.insert(gate, slot)?;
        Ok(slot)
    }

    /// A slot with a constant.
    pub fn constant(&mut self, n: u64) -> Result<u32, AllocError>
        requires { IsTape (tree_of self.old) }
        ensures extends { Extends (tree_of self.old) (tree_of self.new) }
        ensures slot { IfOk result (λ s. s < length self.new.gates.items) }
        ensures says { IfOk result (λ s. Says (tree_of self.new) (λ cells ns. number_at ns s ≡ n)) }
    {
        let slot = self.share(constant_gate(n))?;
        Ok(slot)
    }

    /// A slot with what an operator makes of three slots.
    pub fn operate(&mut self, operator: Operator, a: u32, b: u32, c: u32) -> Result<u32, AllocError>
        requires tape { IsTape (tree_of self.old) }
        requires first { a < length self.old.gates.items }
        requires second { b < length self.old.gates.items }
        requires third { c < length self.old.gates.items }
        ensures extends { Extends (tree_of self.old) (tree_of self.new) }
        ensures slot { IfOk result (λ s. s < length self.new.gates.items) }
        ensures says { IfOk result (λ s. Says (tree_of self.new) (λ cells ns. number_at ns s ≡ operator_value operator cells (number_at ns a) (number_at ns b) (number_at ns c))) }
    {
        if let Some(slot) = plain_or(operator, a, b) {
            return Ok(slot);
        }
        let slot = self.share(Gate {
            rule: Rule::Of(operator),
            a,
            b,
            c,
        })?;
        Ok(slot)
    }

    // The halves of what a wide operator makes.
    fn push_halves(&mut self, at: u32) -> Result<Pair, AllocError>
        requires tape { IsTape (tree_of self.old) }
        requires reads { WideBefore self.old.wides.items (length self.old.gates.items) at }
        ensures extends { Extends (tree_of self.old) (tree_of self.new) }
        ensures slots { IfOk result (λ p. PairBefore (length self.new.gates.items) p) }
        ensures says { IfOk result (λ p. Says (tree_of self.new) (λ cells ns. pair_value ns p ≡ wide_value (wide_at self.old.wides.items at) ns)) }
    {
        let low = self.push(Gate {
            rule: Rule::Low,
            a: at,
            b: 0,
            c: 0,
        })?;
        let high = self.push(Gate {
            rule: Rule::High,
            a: at,
            b: 0,
            c: 0,
        })?;
        Ok(Pair { low, high })
    }

    /// A wide operator after the others, and its index.
    pub fn push_wide(&mut self, wide: Wide) -> Result<u32, AllocError>
        requires { IsTape (tree_of self.old) }
        ensures extends { Extends (tree_of self.old) (tree_of self.new) }
        ensures gates { self.new.gates.items ≡ self.old.gates.items }
        ensures place { IfOk result (λ k. (k < length self.new.wides.items) × (wide_at self.new.wides.items k ≡ wide)) }
    {
        let place = self.wides.len();
        if place >= u32::MAX as usize {
            return Err(AllocError);
        }
        self.wides.push(wide)?;
        Ok(place as u32)
    }

    /// A pair with what an operator of the Verilog subset makes of two pairs, for a target of some bits.
    pub fn wide(
        &mut self,
        op: BinaryOp,
        bits: u32,
        left: Pair,
        right: Pair,
    ) -> Result<Pair, AllocError>
        requires tape { IsTape (tree_of self.old) }
        requires bits { bits ≤ 128 }
        requires left { PairBefore (length self.old.gates.items) left }
        requires right { PairBefore (length self.old.gates.items) right }
        ensures extends { Extends (tree_of self.old) (tree_of self.new) }
        ensures slots { IfOk result (λ p. PairBefore (length self.new.gates.items) p) }
        ensures says { IfOk result (λ p. Says (tree_of self.new) (λ cells ns. pair_value ns p ≡ op_value bits op (pair_value ns left) (pair_value ns right))) }
    {
        let place = self.push_wide(Wide {
            op,
            bits,
            left,
            right,
        })?;
        self.push_halves(place)
    }

    /// The gates of all slots and the wide operators, without the rest.
    pub fn into_parts(self) -> (Vec<Gate>, Vec<Wide>)
        ensures gates { result.0.items ≡ (tree_of self).gates }
        ensures wides { result.1.items ≡ (tree_of self).wides }
    {
        let Tape {
            gates,
            wides,
            known: _,
        } = self;
        (gates, wides)
    }
}
