//! The publisher: the one end that shows readers the next block.
ghost use Rattle.std.specs.Prelude.{◌≡◌, [], ◌∷◌, ◌++◌, false, drop, IfOk, IfErr, OnOk, OnErr};
ghost use Rattle.left_right.specs.Sides.{view};
ghost use Rattle.rules.specs.World.{height_of};
ghost use Rattle.rules.specs.Linked.{IsLinkedDelta};
ghost use Rattle.query.specs.Published.{Leaves, published_world};
ghost use Rattle.query.specs.Counted.{counter_of};
ghost use Rattle.query.specs.Rule.{IsTold, ChangeNothing, absorbed};
ghost use Rattle.query.specs.declared.shown.Operation.TheVariants.{Block};
ghost use Rattle.world.specs.Applied.{AreBehind};

use crate::fault::PublishFault;
use crate::front::{Counter, Front};
use crate::receipt::Receipt;
use crate::shown::{Entry, Operation, Sees, Shown, ShownWriter};
use core::mem;
use core::mem::replace_with;
use policy::Definitions;
use rules::{Delta, Flag};
use std::alloc::{AllocError, Global};
use std::marker::Model;
use std::sync::Wait;
use values::{Hash, Items, Shared};
use world::{ReadyDelta, Room, World};

/// Publishes blocks, each whole. It has no `Drop`: [`Publisher::close`] ends it.
///
/// It keeps two worlds: readers take one, and it makes the other the next. Both share values, keys, policies and block
/// bytes with the deltas; no world is copied.
pub struct Publisher {
    alloc: Global,
    counter: Counter,
    front: Front,
    writer: ShownWriter,
    failed: bool,
}

impl Model for Publisher {
    ghost use Rattle.query.specs.Published.{Publishing};
    ghost use Rattle.query.specs.Code.{publishing_code};

    ghost Value = { Publishing };

    ghost coded = { publishing_code };

    ghost use Rattle.std.specs.Prelude.{◌≡◌, false, drop};
    ghost use Rattle.left_right.specs.Sides.{view as told_to};
    ghost use Rattle.query.specs.Counted.{counter_of};
    ghost use Rattle.query.specs.Rule.{IsTold, IsShown, ChangeNothing, base_of};

    ghost view = { λ p. record { book = p.front.book; base = base_of (told_to p.writer.desk.place); list = p.front.list; failed = p.failed } };

    ghost invariant = { λ p. (p.counter ≡ counter_of p.front.book)
        × IsTold (told_to p.writer.desk.place) (base_of (told_to p.writer.desk.place)) p.front.book
        × IsShown (base_of (told_to p.writer.desk.place)) p.front p.writer.desk.shown.value
        × (p.failed ≡ false → ChangeNothing (drop p.writer.behind p.writer.log.items)) };
}

/// The writer, which shows readers one delta more.
fn shown<R: Wait>(
    mut writer: ShownWriter,
    rt: &R,
    entry: Entry,
) -> (ShownWriter, Result<(), AllocError>)
    requires none { ChangeNothing (drop writer.behind writer.log.items) }
    requires linked { IsLinkedDelta writer.desk.shown.value.world entry.delta }
    requires definitions { AreBehind writer.desk.shown.value.world entry.delta entry.definitions }
    requires list { entry.front.list ≡ writer.desk.shown.value.front.list ++ entry.delta ∷ [] }
    requires book { entry.front.book ≡ writer.desk.shown.value.front.book }
    ensures place { view result.0.desk.place ≡ view writer.desk.place }
    ensures ok { OnOk result.1 (result.0.desk.shown.value ≡ absorbed writer.desk.shown.value (Block entry)) }
    ensures none { OnOk result.1 (ChangeNothing (drop result.0.behind result.0.log.items)) }
    ensures err { OnErr result.1 (result.0.desk.shown.value ≡ writer.desk.shown.value) }
{
    let Ok(()) = writer.append(Operation::Block(entry)) else {
        return (writer, Err(AllocError));
    };
    writer.publish_as::<Sees, R>(rt)
}

/// Shows readers one delta more.
fn show<R: Wait>(rt: &R, writer: &mut ShownWriter, entry: Entry) -> Result<(), AllocError>
    requires none { ChangeNothing (drop writer.old.behind writer.old.log.items) }
    requires linked { IsLinkedDelta writer.old.desk.shown.value.world entry.delta }
    requires definitions { AreBehind writer.old.desk.shown.value.world entry.delta entry.definitions }
    requires list { entry.front.list ≡ writer.old.desk.shown.value.front.list ++ entry.delta ∷ [] }
    requires book { entry.front.book ≡ writer.old.desk.shown.value.front.book }
    ensures place { view writer.new.desk.place ≡ view writer.old.desk.place }
    ensures ok { OnOk result (writer.new.desk.shown.value ≡ absorbed writer.old.desk.shown.value (Block entry)) }
    ensures none { OnOk result (ChangeNothing (drop writer.new.behind writer.new.log.items)) }
    ensures err { OnErr result (writer.new.desk.shown.value ≡ writer.old.desk.shown.value) }
{
    replace_with(
        writer,
        (rt, entry),
        |writer, (rt, entry)| shown(writer, rt, entry),
    )
}

/// Shows readers one delta more, behind the list that they see, and answers the longer list.
fn add<R: Wait>(
    rt: &R,
    writer: &mut ShownWriter,
    counter: &Counter,
    front: &Front,
    delta: ReadyDelta,
    definitions: Option<Shared<Definitions>>,
) -> Result<Front, AllocError>
    requires none { ChangeNothing (drop writer.old.behind writer.old.log.items) }
    requires counter { counter.now ≡ counter_of front.now.book }
    requires shown { writer.old.desk.shown.value.front ≡ front.now }
    requires linked { IsLinkedDelta writer.old.desk.shown.value.world delta }
    requires definitions { AreBehind writer.old.desk.shown.value.world delta definitions }
    ensures place { view writer.new.desk.place ≡ view writer.old.desk.place }
    ensures front { IfOk result (λ f. f ≡ record { book = front.now.book; list = front.now.list ++ delta ∷ [] }) }
    ensures ok { IfOk result (λ f. writer.new.desk.shown.value ≡ absorbed writer.old.desk.shown.value (Block (record { delta = delta; definitions = definitions; front = f }))) }
    ensures none { OnOk result (ChangeNothing (drop writer.new.behind writer.new.log.items)) }
    ensures err { OnErr result (writer.new.desk.shown.value ≡ writer.old.desk.shown.value) }
{
    let Some(longer) = front.with(counter, delta.delta()) else {
        return Err(AllocError);
    };
    let entry = Entry {
        delta,
        definitions,
        front: longer.again(),
    };
    show(rt, writer, entry)?;
    Ok(longer)
}

/// What is had before a delta is published: what its receipt says, and the policies of chaincodes behind it, where
/// these change.
#[derive(Drop)]
struct Preparation {
    number: u64,
    header_hash: Hash,
    commit_hash: Hash,
    flags: Items<Flag>,
    definitions: Option<Shared<Definitions>>,
}

/// Memory for a copy of the block's flags, and for policies of chaincodes where these change.
fn prepare(alloc: Global, world: &World, delta: &Delta) -> Result<Preparation, AllocError>
    ensures number { IfOk result (λ p. p.number ≡ height_of world.now) }
    ensures block { IfOk result (λ p. (p.header_hash ≡ delta.now.block.header_hash) × (p.commit_hash ≡ delta.now.block.commit_hash) × (p.flags ≡ delta.now.block.flags)) }
    ensures definitions { IfOk result (λ p. AreBehind world.now delta.now p.definitions) }
{
    let definitions = world.definitions_behind(delta)?;
    let block = delta.block.get();
    Ok(Preparation {
        number: world.height(),
        header_hash: block.header_hash,
        commit_hash: block.commit_hash,
        flags: block.flags.copy(alloc)?,
        definitions,
    })
}

/// The writer, whose other world has absorbed what it lacked, where memory wasn't refused, and is shown then.
fn shown_again<R: Wait>(writer: ShownWriter, rt: &R) -> (ShownWriter, Result<(), AllocError>)
    requires none { ChangeNothing (drop writer.behind writer.log.items) }
    ensures place { view result.0.desk.place ≡ view writer.desk.place }
    ensures same { result.0.desk.shown.value ≡ writer.desk.shown.value }
    ensures none { ChangeNothing (drop result.0.behind result.0.log.items) }
{
    let (writer, made) = writer.publish_as::<Sees, R>(rt);
    (writer, made)
}

fn show_again<R: Wait>(rt: &R, writer: &mut ShownWriter) -> Result<(), AllocError>
    requires none { ChangeNothing (drop writer.old.behind writer.old.log.items) }
    ensures place { view writer.new.desk.place ≡ view writer.old.desk.place }
    ensures same { writer.new.desk.shown.value ≡ writer.old.desk.shown.value }
    ensures none { ChangeNothing (drop writer.new.behind writer.new.log.items) }
{
    replace_with(writer, rt, |writer, rt| shown_again(writer, rt))
}

/// Both worlds are to have room from the next times on that they absorb something.
fn ask_for_room(writer: &mut ShownWriter, room: Room) -> Result<(), AllocError>
    requires none { ChangeNothing (drop writer.old.behind writer.old.log.items) }
    ensures desk { writer.new.desk ≡ writer.old.desk }
    ensures none { ChangeNothing (drop writer.new.behind writer.new.log.items) }
{
    match writer.append(Operation::Room(room)) {
        Ok(()) => Ok(()),
        Err(_) => Err(AllocError),
    }
}

/// Has both worlds make room, which takes two publishes of nothing: by the first one of them catches up too.
fn make_room<R: Wait>(rt: &R, writer: &mut ShownWriter, room: Room) -> Result<(), AllocError>
    requires none { ChangeNothing (drop writer.old.behind writer.old.log.items) }
    ensures place { view writer.new.desk.place ≡ view writer.old.desk.place }
    ensures same { writer.new.desk.shown.value ≡ writer.old.desk.shown.value }
    ensures none { ChangeNothing (drop writer.new.behind writer.new.log.items) }
{
    // room that was refused before: no more is asked for until it is there
    if writer.has_pending_operations() {
        show_again(rt, writer)?;
    }
    ask_for_room(writer, room)?;
    show_again(rt, writer)?;
    show_again(rt, writer)
}

impl Publisher {
    /// Over a writer that was told of what it shows, the first of a list.
    pub(crate) fn over(
        alloc: Global,
        counter: Counter,
        front: Front,
        writer: ShownWriter,
    ) -> Publisher
        requires counter { counter ≡ counter_of front.book }
        requires told { IsTold (view writer.desk.place) writer.desk.shown.value.world front.book }
        requires shown { writer.desk.shown.value.front ≡ front }
        requires empty { front.list ≡ [] }
        requires none { drop writer.behind writer.log.items ≡ [] }
        ensures { result ≡ record { book = front.book; base = writer.desk.shown.value.world; list = []; failed = false } }
    {
        Publisher {
            alloc,
            counter,
            front,
            writer,
            failed: false,
        }
    }

    /// Whether a publish has failed. Nothing more is published then.
    pub fn failed(&self) -> bool
        ensures { result ≡ self.now.failed }
    {
        self.failed
    }

    /// What readers take now. Constant time.
    pub fn published(&self) -> &World
        ensures { result.now ≡ published_world self.now }
    {
        &self.writer.published().world
    }

    /// Has both worlds make room for the next delta: its [`ReadyDelta::room_in`] the published world. Both absorb the
    /// last block too, which spares the next publish that.
    ///
    /// Readers see no change. Memory for the room alone. Waits twice for queries that began before, and once more where
    /// room was refused before. Does nothing where a publish has failed.
    pub fn make_room<R: Wait>(&mut self, rt: &R, room: Room) -> Result<(), AllocError>
        ensures { self.new ≡ self.old }
    {
        if self.failed {
            return Ok(());
        }
        make_room(rt, &mut self.writer, room)
    }

    /// Makes room for the next block and publishes it, whole: from then on queries answer from the world after it.
    ///
    /// An `Err` publishes nothing. Costs the delta twice, once for each world, and its batch once. Waits for queries
    /// that began before the last publish, and before each of the steps that make room.
    pub fn publish<R: Wait>(&mut self, rt: &R, delta: Delta) -> Result<Receipt, PublishFault>
        requires linked { IsLinkedDelta (published_world self.old) delta }
        requires open { self.old.failed ≡ false }
        ensures ok { OnOk result (self.new ≡ record self.old { list = self.old.list ++ delta ∷ [] }) }
        ensures number { IfOk result (λ r. r.number ≡ height_of (published_world self.old)) }
        ensures height { IfOk result (λ r. r.height ≡ height_of (published_world self.new)) }
        ensures block { IfOk result (λ r. (r.header_hash ≡ delta.block.header_hash) × (r.commit_hash ≡ delta.block.commit_hash) × (r.flags ≡ delta.block.flags)) }
        ensures front { IfOk result (λ r. r.front ≡ record { book = self.new.book; list = self.new.list }) }
        ensures err { IfErr result (λ fault. Leaves self.old fault self.new) }
    {
        let Ok(ready) = ReadyDelta::new(self.alloc, delta) else {
            return Err(PublishFault::Memory);
        };
        let room = ready.room_in(self.published());
        let Ok(()) = self.make_room(rt, room) else {
            return Err(PublishFault::Memory);
        };
        self.publish_ready(rt, ready)
    }

    /// Publishes the next block, whose batch is made, without making room. Waits for queries that began before the last
    /// publish.
    ///
    /// Takes memory for the receipt, and for policies of chaincodes where these change; this comes first, so that
    /// `Memory` changes nothing. Tests alone show that it takes no other where room was made.
    pub fn publish_ready<R: Wait>(
        &mut self,
        rt: &R,
        delta: ReadyDelta,
    ) -> Result<Receipt, PublishFault>
        requires linked { IsLinkedDelta (published_world self.old) delta }
        requires open { self.old.failed ≡ false }
        ensures ok { OnOk result (self.new ≡ record self.old { list = self.old.list ++ delta ∷ [] }) }
        ensures number { IfOk result (λ r. r.number ≡ height_of (published_world self.old)) }
        ensures height { IfOk result (λ r. r.height ≡ height_of (published_world self.new)) }
        ensures block { IfOk result (λ r. (r.header_hash ≡ delta.block.header_hash) × (r.commit_hash ≡ delta.block.commit_hash) × (r.flags ≡ delta.block.flags)) }
        ensures front { IfOk result (λ r. r.front ≡ record { book = self.new.book; list = self.new.list }) }
        ensures err { IfErr result (λ fault. Leaves self.old fault self.new) }
    {
        let Ok(made) = prepare(self.alloc, self.published(), delta.delta()) else {
            return Err(PublishFault::Memory);
        };
        let Preparation {
            number,
            header_hash,
            commit_hash,
            flags,
            definitions,
        } = made;
        self.failed = true;
        let Ok(front) = add(
            rt,
            &mut self.writer,
            &self.counter,
            &self.front,
            delta,
            definitions,
        ) else {
            return Err(PublishFault::Failed);
        };
        self.front = front.again();
        self.failed = false;
        Ok(Receipt {
            number,
            height: self.writer.published().world.height(),
            header_hash,
            commit_hash,
            flags,
            front,
        })
    }

    // What was published last, behind which nothing is published.
    fn ended<R: Wait>(self, rt: &R) -> Box<Shown>
        ensures { result.value.front ≡ record { book = self.book; list = self.list } }
    {
        let Publisher {
            alloc: _,
            counter: _counter,
            front: _front,
            writer,
            failed: _,
        } = self;
        writer.take(rt)
    }

    /// Ends the publisher, and answers what was published last: all that it had published, and nothing more. It waits for
    /// queries that have begun, and handles get no entry from then on; no clause says either.
    pub fn close<R: Wait>(self, rt: &R) -> Front
        ensures { result ≡ record { book = self.book; list = self.list } }
    {
        self.ended(rt).front.again()
    }

    /// Ends the publisher as [`Publisher::close`] does, but doesn't give back the memory of the last world: for a process
    /// that ends now, whose memory goes back at once.
    pub fn leak<R: Wait>(self, rt: &R) -> Front
        ensures { result ≡ record { book = self.book; list = self.list } }
    {
        let last = self.ended(rt);
        let front = last.front.again();
        mem::forget(last);
        front
    }
}
