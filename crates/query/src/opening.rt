//! Opens a publisher with its handles.
ghost use Rattle.std.specs.Prelude.{◌≡◌, ◌≤◌, ◌<◌, ◌↔◌, [], false, drop, length, All, IfOk, IfErr, vec_capacity};
ghost use Rattle.left_right.specs.Sides.{view};
ghost use Rattle.query.specs.Limits.{max_readers};
ghost use Rattle.query.specs.Rule.{IsTold};

use crate::front::Front;
use crate::handle::QueryHandle;
use crate::publisher::Publisher;
use crate::shown::{Begins, Notes, Shown, ShownWriter};
use std::alloc::{AllocError, Global};
use std::sync::Wait;
use thiserror::Error;
use world::World;

/// The most handles that there may be.
pub const MAX_READERS: usize = 32;

/// Why nothing was opened.
#[derive(Clone, Copy, Debug, PartialEq, Eq, Error)]
pub enum OpenFault {
    /// More handles than there may be.
    #[error("more than 32 handles")]
    Readers,
    /// There was no place for a handle. The code comes to this nowhere; no clause says it.
    #[error("no place for a handle")]
    NoPlace,
    /// A growth was refused.
    #[error("out of memory")]
    Memory,
}

/// One handle more, told of what is shown.
fn handle(writer: &mut ShownWriter) -> Result<QueryHandle, AllocError>
    requires { IsTold (view writer.old.desk.place) writer.old.desk.shown.value.world writer.old.desk.shown.value.front.book }
    ensures same { (view writer.new.desk.place ≡ view writer.old.desk.place) × (writer.new.desk.shown ≡ writer.old.desk.shown) × (writer.new.log ≡ writer.old.log) × (writer.new.behind ≡ writer.old.behind) }
    ensures handle { IfOk result (λ h. h ≡ record { book = writer.old.desk.shown.value.front.book; base = writer.old.desk.shown.value.world; list = writer.old.desk.shown.value.front.list }) }
{
    let mut reader = writer.factory().reader()?;
    reader.learn::<Notes>(writer.tell::<Notes>());
    Ok(QueryHandle::over(reader, writer.published()))
}

/// A writer over two worlds that hold the same, with no delta behind them, and so many places for readers.
fn writer_over(
    alloc: Global,
    front: &Front,
    first: World,
    second: World,
    places: usize,
) -> Result<ShownWriter, AllocError>
    requires alike { first ≡ second }
    requires empty { front.now.list ≡ [] }
    requires places { (0 < places) × (places ≤ max_readers) }
    ensures shown { IfOk result (λ w. w.desk.shown.value ≡ record { world = first; front = front.now }) }
    ensures none { IfOk result (λ w. drop w.behind w.log.items ≡ []) }
{
    let first = Shown::of(first, front);
    let second = Shown::of(second, front);
    ShownWriter::new(alloc, first, second, places)
}

/// The writer, told of what it shows. That takes a publish of nothing, which waits for nobody, since no reader is
/// there.
fn begun<R: Wait>(rt: &R, writer: ShownWriter) -> Result<ShownWriter, AllocError>
    requires empty { writer.desk.shown.value.front.list ≡ [] }
    requires none { drop writer.behind writer.log.items ≡ [] }
    ensures told { IfOk result (λ w. IsTold (view w.desk.place) writer.desk.shown.value.world writer.desk.shown.value.front.book) }
    ensures shown { IfOk result (λ w. w.desk.shown.value ≡ writer.desk.shown.value) }
    ensures none { IfOk result (λ w. drop w.behind w.log.items ≡ []) }
{
    let (writer, begun) = writer.publish_as::<Begins, R>(rt);
    match begun {
        Ok(()) => Ok(writer),
        Err(_) => {
            drop(writer.take(rt));
            Err(AllocError)
        }
    }
}

/// The writer over two worlds that hold the same, told of what it shows.
fn start<R: Wait>(
    alloc: Global,
    rt: &R,
    front: &Front,
    first: World,
    second: World,
    places: usize,
) -> Result<ShownWriter, AllocError>
    requires alike { first ≡ second }
    requires empty { front.now.list ≡ [] }
    requires places { (0 < places) × (places ≤ max_readers) }
    ensures told { IfOk result (λ w. IsTold (view w.desk.place) first front.now.book) }
    ensures shown { IfOk result (λ w. w.desk.shown.value ≡ record { world = first; front = front.now }) }
    ensures none { IfOk result (λ w. drop w.behind w.log.items ≡ []) }
{
    let writer = writer_over(alloc, front, first, second, places)?;
    begun(rt, writer)
}

/// Makes the handles. Where there is no place for one the writer is ended.
fn hand_out<R: Wait>(
    rt: &R,
    mut writer: ShownWriter,
    readers: usize,
    mut handles: Vec<QueryHandle>,
) -> Result<(ShownWriter, Vec<QueryHandle>), OpenFault>
    requires told { IsTold (view writer.desk.place) writer.desk.shown.value.world writer.desk.shown.value.front.book }
    requires room { (handles.items ≡ []) × (readers ≤ vec_capacity handles) }
    ensures place { IfOk result (λ r. view r.0.desk.place ≡ view writer.desk.place) }
    ensures same { IfOk result (λ r. (r.0.desk.shown ≡ writer.desk.shown) × (r.0.log ≡ writer.log) × (r.0.behind ≡ writer.behind)) }
    ensures count { IfOk result (λ r. length r.1.items ≡ readers) }
    ensures handles { IfOk result (λ r. All (λ h. h ≡ record { book = writer.desk.shown.value.front.book; base = writer.desk.shown.value.world; list = writer.desk.shown.value.front.list }) r.1.items) }
    ensures fault { IfErr result (λ fault. fault ≡ OpenFault.NoPlace) }
{
    for _ in 0..readers {
        match handle(&mut writer) {
            Ok(handle) => handles.push_reserved(handle),
            Err(_) => {
                drop(writer.take(rt));
                return Err(OpenFault::NoPlace);
            }
        }
    }
    Ok((writer, handles))
}

/// Room for so many handles, at most 32.
fn room_for(alloc: Global, readers: usize) -> Result<Vec<QueryHandle>, OpenFault>
    ensures room { IfOk result (λ handles. (handles.items ≡ []) × (readers ≤ vec_capacity handles) × (readers ≤ max_readers)) }
    ensures readers { (result ≡ Err OpenFault.Readers) ↔ (max_readers < readers) }
{
    if readers > MAX_READERS {
        return Err(OpenFault::Readers);
    }
    match Vec::with_capacity(alloc, readers) {
        Ok(handles) => Ok(handles),
        Err(_) => Err(OpenFault::Memory),
    }
}

/// The writer over two worlds that hold the same, and so many handles, at most 32.
fn begin<R: Wait>(
    alloc: Global,
    rt: &R,
    front: &Front,
    first: World,
    second: World,
    readers: usize,
) -> Result<(ShownWriter, Vec<QueryHandle>), OpenFault>
    requires alike { first ≡ second }
    requires empty { front.now.list ≡ [] }
    ensures told { IfOk result (λ r. IsTold (view r.0.desk.place) first front.now.book) }
    ensures shown { IfOk result (λ r. r.0.desk.shown.value ≡ record { world = first; front = front.now }) }
    ensures none { IfOk result (λ r. drop r.0.behind r.0.log.items ≡ []) }
    ensures count { IfOk result (λ r. length r.1.items ≡ readers) }
    ensures handles { IfOk result (λ r. All (λ h. h ≡ record { book = front.now.book; base = first; list = [] }) r.1.items) }
    ensures readers { (result ≡ Err OpenFault.Readers) ↔ (max_readers < readers) }
{
    let handles = match room_for(alloc, readers) {
        Ok(handles) => handles,
        Err(fault) => return Err(fault),
    };
    let Ok(writer) = start(alloc, rt, front, first, second, readers.max(1)) else {
        return Err(OpenFault::Memory);
    };
    hand_out(rt, writer, readers, handles)
}

/// Opens a publisher over two worlds that hold the same, and so many handles, at most 32, which have seen nothing yet.
///
/// Takes memory for the handles and their places. Waits for no thread: `Wait` is asked for by a step that could.
pub fn open<R: Wait>(
    alloc: Global,
    rt: &R,
    first: World,
    second: World,
    readers: usize,
) -> Result<(Publisher, Vec<QueryHandle>), OpenFault>
    requires alike { first ≡ second }
    ensures publisher { IfOk result (λ r. (r.0.base ≡ first) × (r.0.list ≡ []) × (r.0.failed ≡ false)) }
    ensures count { IfOk result (λ r. length r.1.items ≡ readers) }
    ensures handles { IfOk result (λ r. All (λ h. h ≡ record { book = r.0.book; base = first; list = [] }) r.1.items) }
    ensures readers { (result ≡ Err OpenFault.Readers) ↔ (max_readers < readers) }
{
    let (counter, front) = Front::open();
    match begin(alloc, rt, &front, first, second, readers) {
        Ok((writer, handles)) => Ok((Publisher::over(alloc, counter, front, writer), handles)),
        Err(fault) => Err(fault),
    }
}
