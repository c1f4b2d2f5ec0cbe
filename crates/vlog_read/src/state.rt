// The modules as far as they are read, and the states in which the next word is read.

ghost use Rattle.std.specs.Prelude.{◌≡◌, IfOk, OnOk};
ghost use Rattle.vlog_tree.specs.Form.{IsModule};
ghost use Rattle.vlog_read.specs.ValueReading as spec;

use crate::held::Held;
use std::alloc::{AllocError, Global};
use tapa_base::Text;
use vlog_lex::{Coming, Listed, Parts};
use vlog_tree::{Atom, BinaryOp, Connection, Item, Module, PortDecl, Step};

/// The modules that are whole, and the module that is being read, as far as it is read.
#[derive(Drop)]
pub struct ModuleDraft {
    pub modules: Listed<Module>,
    pub name: Text,
    pub ports: Listed<PortDecl>,
    pub items: Listed<Item>,
}

/// The steps of a block so far, and the parts that are open.
#[derive(Drop)]
pub struct Steps {
    pub steps: Listed<Step>,
    pub parts: Parts,
}

/// An instance as far as it is read.
#[derive(Drop)]
pub struct Joining {
    pub child: Text,
    pub name: Text,
    pub connections: Listed<Connection>,
}

/// The kind of declaration that a range and a name belong to.
#[derive(Clone, Copy)]
pub enum Declared {
    Input,
    Output,
    Wire,
    Reg,
}

/// The place of an atom in a value or a step.
#[derive(Drop)]
pub enum Purpose {
    /// The first atom of the value that drives a net.
    First(Text),
    Inverted(Text),
    Right(Text, Atom, BinaryOp),
    Yes(Text, Atom),
    No(Text, Atom, Atom),
    Joined(Text, Listed<Atom>),
    Copied(Text, u32),
    Assigned(Held<Steps>, Text),
    Stored(Held<Steps>, Text, Text),
}

/// A choice by the next word between modules, and up to the items of one.
#[derive(Drop)]
pub enum HeadState {
    Between(Listed<Module>),
    ModuleName(Listed<Module>),
    PortStart(Held<ModuleDraft>),
    RangeOrName(Held<ModuleDraft>, Declared),
    RangeHigh(Held<ModuleDraft>, Declared),
    DeclaredName(Held<ModuleDraft>, Declared, u32),
    PortNext(Held<ModuleDraft>),
}

/// A choice by the next word among items.
#[derive(Drop)]
pub enum ItemState {
    ItemStart(Held<ModuleDraft>),
    RegNext(Held<ModuleDraft>, u32, Text),
    CellsLast(Held<ModuleDraft>, u32, Text),
    InstanceName(Held<ModuleDraft>, Text),
    ConnectionPort(Held<ModuleDraft>, Held<Joining>),
    ConnectionNet(Held<ModuleDraft>, Held<Joining>, Text),
    ConnectionNext(Held<ModuleDraft>, Held<Joining>),
}

/// A choice by the next word in an assignment, and in an atom.
#[derive(Drop)]
pub enum ValueState {
    AssignName(Held<ModuleDraft>),
    ValueStart(Held<ModuleDraft>, Text),
    BraceStart(Held<ModuleDraft>, Text),
    ValueNext(Held<ModuleDraft>, Text, Held<Atom>),
    ConcatNext(Held<ModuleDraft>, Text, Listed<Atom>),
    AtomStart(Held<ModuleDraft>, Held<Purpose>),
    AtomNext(Held<ModuleDraft>, Held<Purpose>, Text),
    AtomHigh(Held<ModuleDraft>, Held<Purpose>, Text),
    AtomLow(Held<ModuleDraft>, Held<Purpose>, Text, u32),
    AtomEnd(Held<ModuleDraft>, Held<Purpose>, Held<Atom>),
}

/// A choice by the next word in a block.
#[derive(Drop)]
pub enum BlockState {
    StepStart(Held<ModuleDraft>, Held<Steps>),
    AfterEnd(Held<ModuleDraft>, Held<Steps>),
    IfName(Held<ModuleDraft>, Held<Steps>),
    StepTarget(Held<ModuleDraft>, Held<Steps>, Text),
    StepIndex(Held<ModuleDraft>, Held<Steps>, Text),
}

/// A choice by the next word.
#[derive(Drop)]
pub enum State {
    Head(HeadState),
    Item(ItemState),
    Value(ValueState),
    Block(BlockState),
}

/// The words that must come, and the choice after them. A reader is moved at each word, so its parts are in memory of their own.
#[derive(Drop)]
pub struct Reader {
    pub coming: Coming,
    pub state: State,
}

// Readers in which certain words must come, and then a choice of one of the four sorts.
impl Reader {
    /// Returns a reader in the head of a module, before these words.
    pub fn head(coming: Coming, state: HeadState) -> Reader
        ensures { result ≡ spec.behind coming (State.Head state) }
    {
        let state = State::Head(state);
        Reader { coming, state }
    }

    /// Returns a reader among the items, before these words.
    pub fn item(coming: Coming, state: ItemState) -> Reader
        ensures { result ≡ spec.behind coming (State.Item state) }
    {
        let state = State::Item(state);
        Reader { coming, state }
    }

    /// Returns a reader in a value, before these words.
    pub fn value(coming: Coming, state: ValueState) -> Reader
        ensures { result ≡ spec.behind coming (State.Value state) }
    {
        let state = State::Value(state);
        Reader { coming, state }
    }

    /// Returns a reader in an `always` block, before these words.
    pub fn block(coming: Coming, state: BlockState) -> Reader
        ensures { result ≡ spec.behind coming (State.Block state) }
    {
        let state = State::Block(state);
        Reader { coming, state }
    }

    /// Returns a reader before these words and an atom.
    pub fn atom(
        alloc: Global,
        coming: Coming,
        draft: Held<ModuleDraft>,
        purpose: Purpose,
    ) -> Result<Reader, AllocError>
        ensures { IfOk result (λ r. r ≡ spec.behind coming (State.Value (ValueState.AtomStart draft purpose))) }
    {
        let purpose = Held::new(alloc, purpose)?;
        Ok(Reader::value(coming, ValueState::AtomStart(draft, purpose)))
    }

    /// Returns a reader after an item, before the words that end the item.
    pub fn item_behind(
        coming: Coming,
        draft: Held<ModuleDraft>,
        item: Item,
    ) -> Result<Reader, AllocError>
        ensures { IfOk result (λ r. r ≡ spec.item_behind coming draft item) }
    {
        let Held { mut held } = draft;
        held.push_item(item)?;
        let draft = Held { held };
        Ok(Reader::item(coming, ItemState::ItemStart(draft)))
    }
}

// A state is dropped part by part: one function cannot hold it whole.

/// Drops the state of a reader in a head.
pub fn discard_head(_state: HeadState) {}

/// Drops the state of a reader among items.
pub fn discard_item(_state: ItemState) {}

fn discard_purpose(_draft: Held<ModuleDraft>, _purpose: Held<Purpose>) {}

/// Drops the state of a reader in a value.
pub fn discard_value(state: ValueState) {
    match state {
        ValueState::AssignName(_draft) => {}
        ValueState::ValueStart(_draft, _net) => {}
        ValueState::BraceStart(_draft, _net) => {}
        ValueState::ValueNext(_draft, _net, _first) => {}
        ValueState::ConcatNext(_draft, _net, _atoms) => {}
        ValueState::AtomStart(draft, purpose) => discard_purpose(draft, purpose),
        ValueState::AtomNext(draft, purpose, _name) => discard_purpose(draft, purpose),
        ValueState::AtomHigh(draft, purpose, _name) => discard_purpose(draft, purpose),
        ValueState::AtomLow(draft, purpose, _net, _high) => discard_purpose(draft, purpose),
        ValueState::AtomEnd(draft, purpose, _atom) => discard_purpose(draft, purpose),
    }
}

/// Drops the state of a reader in a block.
pub fn discard_block(_state: BlockState) {}

/// Drops the state of a reader.
pub fn discard(state: State) {
    match state {
        State::Head(state) => discard_head(state),
        State::Item(state) => discard_item(state),
        State::Value(state) => discard_value(state),
        State::Block(state) => discard_block(state),
    }
}

impl Reader {
    /// Returns the reader after this word, which must be the first of the words that come. Returns `None` for another word.
    pub fn expected(self, word: &[u8]) -> Option<Reader>
        ensures { result ≡ spec.expected self.coming self.state word.now }
    {
        let Reader { coming, state } = self;
        if word == coming.first() {
            let coming = coming.rest();
            Some(Reader { coming, state })
        } else {
            discard(state);
            None
        }
    }
}

impl ModuleDraft {
    /// Begins a module, after its name.
    pub fn begun(alloc: Global, modules: Listed<Module>, name: Text) -> ModuleDraft
        ensures { result ≡ spec.begun modules name }
    {
        ModuleDraft {
            modules,
            name,
            ports: Listed::new(alloc),
            items: Listed::new(alloc),
        }
    }

    /// Adds a port.
    pub fn push_port(&mut self, port: PortDecl) -> Result<(), AllocError>
        ensures { OnOk result (self.new ≡ spec.with_port self.old port) }
    {
        self.ports.push(port)?;
        Ok(())
    }

    /// Adds an item.
    pub fn push_item(&mut self, item: Item) -> Result<(), AllocError>
        ensures { OnOk result (self.new ≡ spec.with_item self.old item) }
    {
        self.items.push(item)?;
        Ok(())
    }

    /// Returns the modules with the one that was read.
    pub fn finished(self) -> Result<Listed<Module>, AllocError>
        requires { IsModule (spec.module_of self) }
        ensures { IfOk result (λ ms. ms ≡ spec.finished self) }
    {
        let ModuleDraft {
            modules,
            name,
            ports,
            items,
        } = self;
        modules.with(Module::of(name, ports.into_vec(), items.into_vec()))
    }
}

impl Steps {
    /// Begins a block: no steps, and no open part.
    pub fn new(alloc: Global) -> Steps
        ensures { result ≡ spec.no_steps }
    {
        Steps {
            steps: Listed::new(alloc),
            parts: Parts::new(alloc),
        }
    }

    /// Adds a step in the part that is open.
    pub fn push(&mut self, step: Step) -> Result<(), AllocError>
        ensures { OnOk result (self.new ≡ spec.with_step self.old step) }
    {
        self.steps.push(step)?;
        Ok(())
    }

    /// Adds a step that opens a part.
    pub fn push_open(&mut self, step: Step, is_else: bool) -> Result<(), AllocError>
        ensures { OnOk result (self.new ≡ spec.opened self.old step is_else) }
    {
        self.steps.push(step)?;
        self.parts.push(is_else)?;
        Ok(())
    }
}

impl Held<Steps> {
    /// Returns the steps with one more in the part that is open.
    pub fn with_step(self, step: Step) -> Result<Held<Steps>, AllocError>
        ensures { IfOk result (λ s. s ≡ spec.with_step self step) }
    {
        let Held { mut held } = self;
        held.push(step)?;
        Ok(Held { held })
    }

    /// Returns the steps with one more, which opens a part.
    pub fn opened(self, step: Step, is_else: bool) -> Result<Held<Steps>, AllocError>
        ensures { IfOk result (λ s. s ≡ spec.opened self step is_else) }
    {
        let Held { mut held } = self;
        held.push_open(step, is_else)?;
        Ok(Held { held })
    }
}

impl Joining {
    /// Adds a connection.
    pub fn push(&mut self, connection: Connection) -> Result<(), AllocError>
        ensures { OnOk result (self.new ≡ spec.with_connection self.old connection) }
    {
        self.connections.push(connection)?;
        Ok(())
    }
}

impl Held<ModuleDraft> {
    /// Returns the draft with one more port.
    pub fn with_port(self, port: PortDecl) -> Result<Held<ModuleDraft>, AllocError>
        ensures { IfOk result (λ d. d ≡ spec.with_port self port) }
    {
        let Held { mut held } = self;
        held.push_port(port)?;
        Ok(Held { held })
    }
}

impl Held<Joining> {
    /// Returns the instance with one more connection.
    pub fn with_connection(self, connection: Connection) -> Result<Held<Joining>, AllocError>
        ensures { IfOk result (λ q. q ≡ spec.with_connection self connection) }
    {
        let Held { mut held } = self;
        held.push(connection)?;
        Ok(Held { held })
    }
}
