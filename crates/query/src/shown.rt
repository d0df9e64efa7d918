//! What readers take, and the rule that ties it to its list.
ghost use Rattle.std.specs.Prelude.{◌≡◌, IfErr, OnOk, OnErr};
ghost use Rattle.query.specs.declared.shown.Operation.TheVariants.{Block};
ghost use Rattle.query.specs.Rule.{absorbed};

use crate::front::Front;
use atomic_table::{Join, Split};
use crossbeam_utils::rule::{Outcome, Protocol};
use left_right::Absorb;
use left_right::reader::{Reader, Reading};
use left_right::writer::Writer;
use policy::Definitions;
use std::alloc::AllocError;
use values::Shared;
use world::{ReadyDelta, Room, World};

/// A world, and the list of deltas that made it.
#[derive(Drop)]
pub(crate) struct Shown {
    pub world: World,
    pub front: Front,
}

/// A delta with its batch, the policies of chaincodes behind it, where these change, and the list that ends with it.
#[derive(Drop)]
pub(crate) struct Entry {
    pub delta: ReadyDelta,
    pub definitions: Option<Shared<Definitions>>,
    pub front: Front,
}

/// What a world absorbs.
#[derive(Drop)]
pub(crate) enum Operation {
    /// Has room for a delta that comes next, which nobody sees.
    Room(Room),
    Block(Entry),
}

/// What a seat was told: the world that it was opened with, and of which list. No value of it is made.
pub(crate) struct Told {
    pub base: World,
    pub front: Front,
}

impl Shown {
    /// A world, with the list of deltas that made it.
    pub(crate) fn of(world: World, front: &Front) -> Shown
        ensures { result ≡ record { world = world; front = front.now } }
    {
        Shown {
            world,
            front: front.again(),
        }
    }

    fn absorb_lent(&mut self, entry: &Entry) -> Result<(), AllocError>
        ensures ok { OnOk result (self.new ≡ absorbed self.old (Block entry.now)) }
        ensures err { OnErr result (self.new ≡ self.old) }
    {
        self.world.apply_ready(&entry.delta, &entry.definitions)?;
        self.front = entry.front.again();
        Ok(())
    }

    fn absorb_given(&mut self, entry: Entry) -> Result<(), Entry>
        ensures ok { OnOk result (self.new ≡ absorbed self.old (Block entry)) }
        ensures err { IfErr result (λ back. (back ≡ entry) × (self.new ≡ self.old)) }
    {
        let Entry {
            delta,
            definitions,
            front,
        } = entry;
        match self.world.apply_given(delta, &definitions) {
            Ok(()) => {
                self.front = front;
                Ok(())
            }
            Err(delta) => Err(Entry {
                delta,
                definitions,
                front,
            }),
        }
    }
}

impl Absorb<Operation> for Shown {
    type State = Shown;

    ghost use Rattle.query.specs.Rule.{absorbed};

    ghost state = { λ x. x };

    ghost applied = { absorbed };

    fn absorb_first(&mut self, operation: &Operation, _other: &Shown) -> Result<(), AllocError> {
        match operation {
            Operation::Room(room) => self.world.reserve(*room),
            Operation::Block(entry) => self.absorb_lent(entry),
        }
    }

    fn absorb_second(&mut self, operation: Operation, _other: &Shown) -> Result<(), Operation> {
        match operation {
            Operation::Room(room) => match self.world.reserve(room) {
                Ok(()) => Ok(()),
                Err(_) => Err(Operation::Room(room)),
            },
            Operation::Block(entry) => match self.absorb_given(entry) {
                Ok(()) => Ok(()),
                Err(entry) => Err(Operation::Block(entry)),
            },
        }
    }
}

pub(crate) struct IsRuled;

impl Protocol<Shown, Option<Told>> for IsRuled {
    ghost use Rattle.std.specs.Prelude.{None};
    ghost use Rattle.query.specs.Rule as rule;

    ghost holds = { rule.IsRuled };

    ghost first = { None };
}

/// A look, or a publish.
pub(crate) struct Sees;

impl Outcome<Shown, Option<Told>> for Sees {
    ghost use Rattle.query.specs.Rule as rule;

    ghost then = { rule.Sees };
}

/// The writer's first step.
pub(crate) struct Begins;

impl Outcome<Shown, Option<Told>> for Begins {
    ghost use Rattle.query.specs.Rule as rule;

    ghost then = { rule.Begins };
}

/// How the writer tells a new seat what it knows itself.
pub(crate) struct Notes;

impl Split<Option<Told>> for Notes {
    ghost left = { λ v. v };

    ghost right = { λ v. v };
}

impl Join<Option<Told>> for Notes {
    ghost use Rattle.std.specs.Prelude.{None};

    ghost both = { λ v w. w };

    ghost spent = { None };
}

pub(crate) type ShownReader = Reader<Shown, Option<Told>, IsRuled>;

pub(crate) type ShownReading = Reading<Shown, Option<Told>, IsRuled>;

pub(crate) type ShownWriter = Writer<Shown, Operation, Option<Told>, IsRuled>;
