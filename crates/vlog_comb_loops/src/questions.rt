// Which questions decide whether a name lies on a loop.

ghost use Rattle.std.specs.Prelude.{◌≡◌, ◌≢◌, ◌<◌, ◌↔◌, ◌+◌, ◌++◌, ◌∷◌, [], ℕ, List, true, Some, None, take, drop, length, slice_get, IfOk, OnOk};
ghost use Rattle.tapa_base.specs.Lists.{Has};
ghost use Rattle.vlog_tree.specs.Form.{ModuleTree};
ghost use Rattle.vlog_tree.specs.Loops.{item_instances, port_of};
ghost use Rattle.vlog_scope.specs.NameTable.{value_in};
ghost use Rattle.number_graph.specs.Graphs.{targets_of};
ghost use Rattle.vlog_net_graph.specs.Names.{texts};
ghost use Rattle.vlog_comb_loops.specs.Questions.{asked_of, Keeps, AsksLines, NamesLines, AsksPort, Asks, AsksAll, AreUses};

use crate::suspects::Suspect;
use std::alloc::{AllocError, Global};
use std::collections::HashMap;
use vlog_net_graph::{NamedGraph, dotted, insert_number};
use vlog_scope::Library;
use vlog_tree::{Item, Module};

/// For each name a list of questions. A question is an index, and the line of an instance there, or no line.
#[derive(Drop)]
pub struct Questions {
    pub numbers: HashMap<Vec<u8>, usize>,
    pub lists: Vec<Vec<(usize, Option<usize>)>>,
}

fn push_question(
    lists: &mut Vec<Vec<(usize, Option<usize>)>>,
    number: usize,
    question: (usize, Option<usize>),
) -> Result<(), AllocError>
    requires { number < length lists.old.items }
    ensures at { OnOk result (targets_of lists.new.items number ≡ targets_of lists.old.items number ++ question ∷ []) }
    ensures others { (i : ℕ) → i ≢ number → targets_of lists.new.items i ≡ targets_of lists.old.items i }
{
    lists[number].push(question)?;
    Ok(())
}

fn list_at(lists: &[Vec<(usize, Option<usize>)>], number: usize) -> &[(usize, Option<usize>)]
    ensures { result.now ≡ targets_of lists.now number }
{
    match lists.get(number) {
        Some(list) => list,
        None => &[],
    }
}

impl Questions {
    pub(crate) fn new(alloc: Global) -> Questions {
        Questions {
            numbers: HashMap::new(alloc),
            lists: Vec::new(alloc),
        }
    }

    /// The questions of a name.
    pub(crate) fn of_name(&self, name: &[u8]) -> &[(usize, Option<usize>)]
        ensures { result.now ≡ asked_of self.now name.now }
    {
        match self.numbers.get(name).copied() {
            Some(number) => list_at(&self.lists, number),
            None => &[],
        }
    }

    // The number of a name's list, where there is one.
    fn number(&self, name: &[u8]) -> Option<usize>
        ensures there { (n : ℕ) → result ≡ Some n → (value_in self.now.numbers name.now ≡ Some n) × (n < length self.now.lists.items) }
        ensures none { result ≡ None → asked_of self.now name.now ≡ [] }
    {
        match self.numbers.get(name).copied() {
            Some(number) => {
                if number < self.lists.len() {
                    Some(number)
                } else {
                    None
                }
            }
            None => None,
        }
    }

    // The number of a name's list, which is begun where there is none.
    fn number_for(&mut self, alloc: Global, name: &[u8]) -> Result<usize, AllocError>
        ensures number { IfOk result (λ n. (value_in self.new.numbers name.now ≡ Some n) × (n < length self.new.lists.items)) }
        ensures same { OnOk result ((m : List ℕ) → asked_of self.new m ≡ asked_of self.old m) }
    {
        if let Some(number) = self.number(name) {
            return Ok(number);
        }
        let number = self.lists.len();
        self.lists.push(Vec::new(alloc))?;
        insert_number(alloc, &mut self.numbers, name, number)?;
        Ok(number)
    }

    fn ask(
        &mut self,
        alloc: Global,
        name: &[u8],
        question: (usize, Option<usize>),
    ) -> Result<(), AllocError>
        ensures there { OnOk result (Has (asked_of self.new name.now) question) }
        ensures kept { OnOk result (Keeps self.old self.new) }
    {
        let number = self.number_for(alloc, name)?;
        push_question(&mut self.lists, number, question)?;
        Ok(())
    }
}

// Notes a line under the name of the module that it has an instance of.
fn ask_line(
    alloc: Global,
    questions: &mut Questions,
    at: usize,
    line: usize,
    item: &Item,
) -> Result<(), AllocError>
    ensures there { OnOk result ((m i : List ℕ) → Has (item_instances item.now) (m, i) → Has (asked_of questions.new m) (at, Some line)) }
    ensures kept { OnOk result (Keeps questions.old questions.new) }
{
    match item {
        Item::Instance { module: m, .. } => questions.ask(alloc, m.bytes(), (at, Some(line))),
        Item::Wire { .. } => Ok(()),
        Item::Reg { .. } => Ok(()),
        Item::Memory { .. } => Ok(()),
        Item::Assign { .. } => Ok(()),
        Item::Always(_) => Ok(()),
    }
}

fn ask_lines(
    alloc: Global,
    questions: &mut Questions,
    at: usize,
    items: &[Item],
) -> Result<(), AllocError>
    ensures there { OnOk result (AsksLines questions.new at items.now) }
    ensures kept { OnOk result (Keeps questions.old questions.new) }
{
    for line in 0..items.len() {
        ask_line(alloc, questions, at, line, &items[line])?;
    }
    Ok(())
}

/// For each module's name the lines that have an instance of it, with the indices of their modules.
pub(crate) fn uses_of(alloc: Global, modules: &[Module]) -> Result<Questions, AllocError>
    ensures { IfOk result (λ q. AreUses modules.now q) }
{
    let mut uses = Questions::new(alloc);
    for at in 0..modules.len() {
        let m = &modules[at];
        ask_lines(alloc, &mut uses, at, m.items())?;
    }
    Ok(uses)
}

// Notes a line under the name of its instance.
fn name_line(
    alloc: Global,
    named: &mut Questions,
    at: usize,
    line: usize,
    item: &Item,
) -> Result<(), AllocError>
    ensures there { OnOk result ((m i : List ℕ) → Has (item_instances item.now) (m, i) → Has (asked_of named.new i) (at, Some line)) }
    ensures kept { OnOk result (Keeps named.old named.new) }
{
    match item {
        Item::Instance { name: i, .. } => named.ask(alloc, i.bytes(), (at, Some(line))),
        Item::Wire { .. } => Ok(()),
        Item::Reg { .. } => Ok(()),
        Item::Memory { .. } => Ok(()),
        Item::Assign { .. } => Ok(()),
        Item::Always(_) => Ok(()),
    }
}

// The lines by the names of their instances.
fn named_lines(alloc: Global, at: usize, items: &[Item]) -> Result<Questions, AllocError>
    ensures { IfOk result (λ q. NamesLines q at items.now) }
{
    let mut named = Questions::new(alloc);
    for line in 0..items.len() {
        name_line(alloc, &mut named, at, line, &items[line])?;
    }
    Ok(named)
}

fn ask_item(
    alloc: Global,
    questions: &mut Questions,
    item: &Item,
    line: (usize, Option<usize>),
    port: &[u8],
) -> Result<(), AllocError>
    ensures there { OnOk result ((m i : List ℕ) → Has (item_instances item.now) (m, i) → Has (asked_of questions.new (port_of m port.now)) line) }
    ensures kept { OnOk result (Keeps questions.old questions.new) }
{
    match item {
        Item::Instance { module: m, .. } => {
            let key = dotted(alloc, m.bytes(), port)?;
            questions.ask(alloc, &key, line)
        }
        Item::Wire { .. } => Ok(()),
        Item::Reg { .. } => Ok(()),
        Item::Memory { .. } => Ok(()),
        Item::Assign { .. } => Ok(()),
        Item::Always(_) => Ok(()),
    }
}

// The instance of a line asks of a port.
fn ask_port(
    alloc: Global,
    questions: &mut Questions,
    k: &Module,
    line: (usize, Option<usize>),
    port: &[u8],
) -> Result<(), AllocError>
    ensures there { OnOk result ((j : ℕ) (item : Item) (m i : List ℕ) → line.1 ≡ Some j → slice_get k.now.items j ≡ Some item → Has (item_instances item) (m, i)
        → Has (asked_of questions.new (port_of m port.now)) line) }
    ensures kept { OnOk result (Keeps questions.old questions.new) }
{
    match line.1 {
        Some(at) => match k.items().get(at) {
            Some(item) => {
                ask_item(alloc, questions, item, line, port)?;
                Ok(())
            }
            None => Ok(()),
        },
        None => Ok(()),
    }
}

// Each instance of this name asks of a port.
fn ask_instances(
    alloc: Global,
    questions: &mut Questions,
    k: &Module,
    named: &Questions,
    instance: &[u8],
    port: &[u8],
) -> Result<(), AllocError>
    ensures there { OnOk result (AsksPort questions.new k.now (asked_of named.now instance.now) port.now) }
    ensures kept { OnOk result (Keeps questions.old questions.new) }
{
    for line in named.of_name(instance) {
        ask_port(alloc, questions, k, *line, port)?;
    }
    Ok(())
}

fn is_dot(name: &[u8], at: usize) -> bool
    requires { at < length name.now }
    ensures { (result ≡ true) ↔ (slice_get name.now at ≡ Some 46) }
{
    name[at] == b'.'
}

fn left_of_dot(name: &[u8], dot: usize) -> &[u8]
    requires { dot < length name.now }
    ensures { result.now ≡ take dot name.now }
{
    &name[..dot]
}

fn right_of_dot(name: &[u8], dot: usize) -> &[u8]
    requires { dot < length name.now }
    ensures { result.now ≡ drop (dot + 1) name.now }
{
    &name[dot + 1..]
}

// Each instance asks of the port whose wire has this name, where the dot between the two is at an index.
fn ask_at(
    alloc: Global,
    questions: &mut Questions,
    k: &Module,
    named: &Questions,
    name: &[u8],
    dot: usize,
) -> Result<(), AllocError>
    requires { dot < length name.now }
    ensures there { OnOk result ((i x : List ℕ) → length i ≡ dot → name.now ≡ port_of i x → AsksPort questions.new k.now (asked_of named.now i) x) }
    ensures kept { OnOk result (Keeps questions.old questions.new) }
{
    if !is_dot(name, dot) {
        return Ok(());
    }
    let instance = left_of_dot(name, dot);
    let port = right_of_dot(name, dot);
    ask_instances(alloc, questions, k, named, instance, port)?;
    Ok(())
}

// Each instance asks of the port whose wire has this name. Any dot may be the one between the two.
fn ask_wire(
    alloc: Global,
    questions: &mut Questions,
    k: &Module,
    named: &Questions,
    name: &[u8],
) -> Result<(), AllocError>
    ensures there { OnOk result ((i x : List ℕ) → name.now ≡ port_of i x → AsksPort questions.new k.now (asked_of named.now i) x) }
    ensures kept { OnOk result (Keeps questions.old questions.new) }
{
    for dot in 0..name.len() {
        ask_at(alloc, questions, k, named, name, dot)?;
    }
    Ok(())
}

fn ask_name(
    alloc: Global,
    questions: &mut Questions,
    at: usize,
    k: &Module,
    named: &Questions,
    name: &[u8],
) -> Result<(), AllocError>
    ensures own { OnOk result (Has (asked_of questions.new (port_of k.now.name name.now)) (at, None)) }
    ensures wires { OnOk result ((i x : List ℕ) → name.now ≡ port_of i x → AsksPort questions.new k.now (asked_of named.now i) x) }
    ensures kept { OnOk result (Keeps questions.old questions.new) }
{
    let key = dotted(alloc, k.name().bytes(), name)?;
    questions.ask(alloc, &key, (at, None))?;
    ask_wire(alloc, questions, k, named, name)?;
    Ok(())
}

// The names of a module's graph ask.
fn ask_names(
    alloc: Global,
    questions: &mut Questions,
    at: usize,
    k: &Module,
    named: &Questions,
    names: &[Vec<u8>],
) -> Result<(), AllocError>
    ensures own { OnOk result ((x : List ℕ) → Has (texts names.now) x → Has (asked_of questions.new (port_of k.now.name x)) (at, None)) }
    ensures wires { OnOk result ((i x : List ℕ) → Has (texts names.now) (port_of i x) → AsksPort questions.new k.now (asked_of named.now i) x) }
    ensures kept { OnOk result (Keeps questions.old questions.new) }
{
    for name in names {
        ask_name(alloc, questions, at, k, named, name)?;
    }
    Ok(())
}

fn ask_module(
    alloc: Global,
    questions: &mut Questions,
    at: usize,
    k: &Module,
    graph: &NamedGraph,
) -> Result<(), AllocError>
    ensures there { OnOk result (Asks questions.new at k.now (texts graph.now.names.items)) }
    ensures kept { OnOk result (Keeps questions.old questions.new) }
{
    let named = named_lines(alloc, at, k.items())?;
    ask_names(alloc, questions, at, k, &named, &graph.names)?;
    Ok(())
}

fn ask_suspect(
    alloc: Global,
    library: &Library,
    questions: &mut Questions,
    at: usize,
    suspect: &Suspect,
) -> Result<(), AllocError>
    ensures there { OnOk result ((k : ModuleTree) → slice_get library.now suspect.now.place ≡ Some k → Asks questions.new at k (texts suspect.now.graph.names.items)) }
    ensures kept { OnOk result (Keeps questions.old questions.new) }
{
    match library.modules().get(suspect.place) {
        Some(k) => ask_module(alloc, questions, at, k, &suspect.graph),
        None => Ok(()),
    }
}

/// The questions that the suspects give rise to, each under the name of a module and that of a net with a dot between them.
/// A question is the index of a suspect, and the line of an instance of the module in it, or no line where the suspect is the
/// module. Only nets are asked of that have a wire in the suspect's graph, so there are no more questions than such wires.
pub(crate) fn questions_of(
    alloc: Global,
    library: &Library,
    suspects: &[Suspect],
) -> Result<Questions, AllocError>
    ensures { IfOk result (λ q. AsksAll library.now suspects.now q) }
{
    let mut questions = Questions::new(alloc);
    for at in 0..suspects.len() {
        ask_suspect(alloc, library, &mut questions, at, &suspects[at])?;
    }
    Ok(questions)
}
