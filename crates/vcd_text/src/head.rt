//! The lines in the head of a dump.

ghost use Rattle.std.specs.Prelude.{◌≡◌, ◌<◌, ◌≤◌, ◌^◌, ◌++◌, ◌∷◌, [], List, ℕ, Bool, codes, decimal, length, IfOk, IfErr, MatchOption};
ghost use Rattle.std.specs.Bool.{MatchBool};
ghost use Rattle.tapa_syntax.specs.Characters.{run};
ghost use Rattle.vlog_tree.specs.Names.{within, starts_name, goes_on};
ghost use Rattle.vcd_text.specs.Along.{StopsBefore};
ghost use Rattle.vcd_text.specs.Dump.{identifier, net_type};
ghost use Rattle.vcd_text.specs.Lines.{head_end};
ghost use Rattle.vcd_text.specs.Head.{name_run, IsFree, MayName, IsNameWord, IsType, IsWidthBelow, IsFromName, IsFromIdentifier, IsFromWidth, IsFromType, IsHeadLineTo, IsNetFound};

use crate::along::{expect, next_byte};
use crate::change::digits_at;
use crate::identifier::identifier_at;
use crate::table::NetTable;
use vlog_tree::is_name;

/// The greatest width of a net.
const MOST_BITS: u32 = 128;

fn is_within(low: u8, high: u8, byte: u8) -> bool
    ensures { result ≡ within low high byte }
{
    low <= byte && byte <= high
}

// The type of a net, of which only the text is checked.
fn type_at(text: &[u8]) -> Result<(bool, &[u8]), usize>
    ensures found { IfOk result (λ r. text.now ≡ net_type r.0 ++ r.1.now) }
    ensures stop { IfErr result (λ left. StopsBefore IsType text.now left) }
{
    let wire = match expect(b"wire ", text) {
        Ok(rest) => return Ok((false, rest)),
        Err(left) => left,
    };
    match expect(b"reg ", text) {
        Ok(rest) => Ok((true, rest)),
        Err(left) => Err(wire.min(left)),
    }
}

// The digits of a width and the blank after them.
fn one_width(width: u32, text: &[u8]) -> Result<&[u8], usize>
    ensures found { IfOk result (λ rest. text.now ≡ (decimal width ++ 32 ∷ []) ++ rest.now) }
    ensures stop { IfErr result (λ left. StopsBefore (λ w. w ≡ decimal width ++ 32 ∷ []) text.now left) }
{
    let rest = digits_at(u64::from(width), text)?;
    expect(b" ", rest)
}

// A width and the blank after it.
fn width_at(text: &[u8]) -> Result<(u32, &[u8]), usize>
    ensures found { IfOk result (λ r. (1 ≤ r.0) × (r.0 ≤ 128) × (text.now ≡ (decimal r.0 ++ 32 ∷ []) ++ r.1.now)) }
    ensures stop { IfErr result (λ left. StopsBefore (IsWidthBelow 129) text.now left) }
{
    let mut least = match one_width(1, text) {
        Ok(rest) => return Ok((1, rest)),
        Err(left) => left,
    };
    for width in 2..MOST_BITS + 1 {
        match one_width(width, text) {
            Ok(rest) => return Ok((width, rest)),
            Err(left) => least = least.min(left),
        }
    }
    Err(least)
}

#[tactic(auto, unfolding(vlog_tree::specs::Names::starts_name))]
fn starts(byte: u8) -> bool
    ensures { result ≡ starts_name byte }
{
    is_within(b'a', b'z', byte) || is_within(b'A', b'Z', byte) || byte == b'_'
}

#[tactic(auto, unfolding(vlog_tree::specs::Names::goes_on))]
fn continues(byte: u8) -> bool
    ensures { result ≡ goes_on byte }
{
    starts(byte) || is_within(b'0', b'9', byte) || byte == b'$'
}

// How many bytes a name may go on with.
fn run_length(text: &[u8]) -> usize
    ensures within { result ≤ length text.now }
    ensures bytes { result ≡ run goes_on text.now }
{
    for at in 0..text.len() {
        if !continues(text[at]) {
            return at;
        }
    }
    text.len()
}

// How many bytes have the form of a name.
fn name_length(text: &[u8]) -> usize
    ensures within { result ≤ length text.now }
    ensures bytes { result ≡ name_run text.now }
{
    let Some((byte, rest)) = next_byte(text) else {
        return 0;
    };
    if starts(byte) {
        run_length(rest) + 1
    } else {
        0
    }
}

fn may_name(nets: &NetTable, name: &[u8]) -> bool
    ensures { MatchBool result (MayName nets.now name.now) (MayName nets.now name.now → ⊥) }
{
    is_name(name) && nets.is_free(name)
}

// A name that no net has yet, and what comes after the blank that follows it.
fn name_at<'a>(nets: &NetTable, text: &'a [u8]) -> Result<(&'a [u8], &'a [u8]), usize>
    ensures found { IfOk result (λ r. MayName nets.now r.0.now × (text.now ≡ (r.0.now ++ 32 ∷ []) ++ r.1.now)) }
    ensures stop { IfErr result (λ left. StopsBefore (IsNameWord nets.now) text.now left) }
{
    let count = name_length(text);
    let (name, rest) = text.split_at(count);
    let Some((byte, behind)) = next_byte(rest) else {
        return Err(0);
    };
    if byte != b' ' || !may_name(nets, name) {
        return Err(rest.len());
    }
    Ok((name, behind))
}

/// The line that ends the head, with that of the first cycle.
const HEAD_END: &[u8] = b"$upscope $end\n$enddefinitions $end\n#0\n";

// What comes after an identifier and a blank.
fn spaced_identifier(number: u32, text: &[u8]) -> Result<&[u8], usize>
    ensures found { IfOk result (λ rest. text.now ≡ (identifier number ++ 32 ∷ []) ++ rest.now) }
    ensures stop { IfErr result (λ left. StopsBefore (λ w. w ≡ identifier number ++ 32 ∷ []) text.now left) }
{
    let rest = identifier_at(number, text)?;
    expect(b" ", rest)
}

/// From a name on to the end of its line: the name, and what comes after the line.
pub(crate) fn from_name<'a>(nets: &NetTable, text: &'a [u8]) -> Result<(&'a [u8], &'a [u8]), usize>
    ensures found { IfOk result (λ r. MayName nets.now r.0.now × (text.now ≡ (r.0.now ++ codes " $end\n") ++ r.1.now)) }
    ensures stop { IfErr result (λ left. StopsBefore (IsFromName nets.now) text.now left) }
{
    let (name, rest) = name_at(nets, text)?;
    let behind = expect(b"$end\n", rest)?;
    Ok((name, behind))
}

fn from_identifier<'a>(
    nets: &NetTable,
    number: u32,
    text: &'a [u8],
) -> Result<(&'a [u8], &'a [u8]), usize>
    ensures found { IfOk result (λ r. MayName nets.now r.0.now × (text.now ≡ ((identifier number ++ 32 ∷ []) ++ (r.0.now ++ codes " $end\n")) ++ r.1.now)) }
    ensures stop { IfErr result (λ left. StopsBefore (IsFromIdentifier nets.now number) text.now left) }
{
    let rest = spaced_identifier(number, text)?;
    let (name, behind) = from_name(nets, rest)?;
    Ok((name, behind))
}

/// The net that a line declares: its name and its width.
type NetFound<'a> = (&'a [u8], u32);

fn from_width<'a>(
    nets: &NetTable,
    number: u32,
    text: &'a [u8],
) -> Result<(NetFound<'a>, &'a [u8]), usize>
    ensures found { IfOk result (λ r. MayName nets.now r.0.0.now × (1 ≤ r.0.1) × (r.0.1 ≤ 128)
        × (text.now ≡ ((decimal r.0.1 ++ 32 ∷ []) ++ ((identifier number ++ 32 ∷ []) ++ (r.0.0.now ++ codes " $end\n"))) ++ r.1.now)) }
    ensures stop { IfErr result (λ left. StopsBefore (IsFromWidth nets.now number) text.now left) }
{
    let (bits, rest) = width_at(text)?;
    let (name, behind) = from_identifier(nets, number, rest)?;
    Ok(((name, bits), behind))
}

fn from_type<'a>(
    nets: &NetTable,
    number: u32,
    text: &'a [u8],
) -> Result<(NetFound<'a>, &'a [u8]), usize>
    ensures found { IfOk result (λ r. MayName nets.now r.0.0.now × (1 ≤ r.0.1) × (r.0.1 ≤ 128)
        × ((q : Bool) × (text.now ≡ (net_type q ++ ((decimal r.0.1 ++ 32 ∷ []) ++ ((identifier number ++ 32 ∷ []) ++ (r.0.0.now ++ codes " $end\n")))) ++ r.1.now))) }
    ensures stop { IfErr result (λ left. StopsBefore (IsFromType nets.now number) text.now left) }
{
    let (_, rest) = type_at(text)?;
    let (net, behind) = from_width(nets, number, rest)?;
    Ok((net, behind))
}

// The line of one more net.
fn var_at<'a>(
    nets: &NetTable,
    number: u32,
    text: &'a [u8],
) -> Result<(NetFound<'a>, &'a [u8]), usize>
    ensures found { IfOk result (λ r. IsNetFound nets.now number r.0.0.now r.0.1 text.now r.1.now) }
    ensures stop { IfErr result (λ left. StopsBefore (λ w. (y : List ℕ) × IsFromType nets.now number y × (w ≡ codes "$var " ++ y)) text.now left) }
{
    let rest = expect(b"$var ", text)?;
    let (net, behind) = from_type(nets, number, rest)?;
    Ok((net, behind))
}

/// The net that the line at the start of a text declares, or none at the end of the head, and what comes after it; or the
/// number of bytes left where the text departs from such a line.
pub(crate) fn head_line<'a>(
    nets: &NetTable,
    text: &'a [u8],
) -> Result<(Option<NetFound<'a>>, &'a [u8]), usize>
    requires { length nets.now < 2 ^ 32 }
    ensures found { IfOk result (λ r. MatchOption r.0 (text.now ≡ head_end ++ r.1.now) (λ net. IsNetFound nets.now (length nets.now) net.0.now net.1 text.now r.1.now)) }
    ensures stop { IfErr result (λ left. StopsBefore (IsHeadLineTo nets.now (length nets.now)) text.now left) }
{
    let least = match expect(HEAD_END, text) {
        Ok(rest) => return Ok((None, rest)),
        Err(left) => left,
    };
    match var_at(nets, nets.len() as u32, text) {
        Ok((net, rest)) => Ok((Some(net), rest)),
        Err(left) => Err(least.min(left)),
    }
}
