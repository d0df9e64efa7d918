//! The handles by which threads query.
ghost use Rattle.std.specs.Prelude.{◌≡◌, IfOk, OnOk, OnErr, MatchBool};
ghost use mathlib.Core.List.{IsPrefix};
ghost use Rattle.left_right.specs.Sides.{view};
ghost use Rattle.rules.specs.Answers.{reply, row_answer, range_answer, history_answer, first_use_answer, definition_answer, block_answer, height_answer};
ghost use Rattle.query.specs.Published.{GoesOn, Learns, watched_world};
ghost use Rattle.query.specs.Rule.{IsTold};

use crate::answers::{PolicyText, QueryFault, RangeRows, Reply};
use crate::asking;
use crate::front::Front;
use crate::question::{
    BlockOf, DefinitionOf, FirstUseOf, Height, HistoryOf, Question, RowAt, RowsIn,
};
use crate::receipt::Receipt;
use crate::shown::{Shown, ShownReader};
use rules::{CommittedBlock, FirstUse, HistoryEntry, Row};
use std::alloc::Global;
use std::marker::Model;
use transaction::TxId;
use values::{BoundRef, Items, KeyRef, NameRef};

/// Asks of what is published, for one thread. Each answer comes from one height, never below one that the handle has
/// seen or was told of.
///
/// A query takes no lock and waits for nobody. It costs an entry (two atomic steps to come, two to go), the look-up and
/// a copy of the answer. The publisher waits for a query that lasts, at the latest when it makes room for the next
/// block.
#[derive(Drop)]
pub struct QueryHandle {
    reader: ShownReader,
    known: Front,
}

impl Model for QueryHandle {
    ghost use Rattle.query.specs.Published.{Watch};
    ghost use Rattle.query.specs.Code.{watch_code};

    ghost Value = { Watch };

    ghost coded = { watch_code };

    ghost use Rattle.left_right.specs.Sides.{view as told_to};
    ghost use Rattle.query.specs.Rule.{IsTold, base_of};

    ghost view = { λ h. record { book = h.known.book; base = base_of (told_to h.reader.place); list = h.known.list } };

    ghost invariant = { λ h. IsTold (told_to h.reader.place) (base_of (told_to h.reader.place)) h.known.book };
}

impl QueryHandle {
    /// Of a reader that was told of what is shown.
    pub(crate) fn over(reader: ShownReader, shown: &Shown) -> QueryHandle
        requires { IsTold (view reader.place) shown.now.world shown.now.front.book }
        ensures { result ≡ record { book = shown.now.front.book; base = shown.now.world; list = shown.now.front.list } }
    {
        QueryHandle {
            reader,
            known: shown.front.again(),
        }
    }

    /// Has no later answer come from a height below the receipt's, which is of the publisher that the handle was opened
    /// with. Constant time, no memory.
    pub fn learn(&mut self, receipt: &Receipt)
        requires { receipt.now.front.book ≡ self.old.book }
        ensures { Learns self.old receipt.now.front.list self.new }
    {
        if self.known.begins(&receipt.front) {
            self.known = receipt.front.again();
        }
    }

    /// Whether the handle knows all that a receipt does, which is of the publisher that the handle was opened with: then
    /// it answers from no height below the receipt's. Else the receipt knows all that the handle does. Constant time, no
    /// memory.
    pub fn knows(&self, receipt: &Receipt) -> bool
        requires { receipt.now.front.book ≡ self.now.book }
        ensures { MatchBool result (IsPrefix receipt.now.front.list self.now.list) (IsPrefix self.now.list receipt.now.front.list) }
    {
        receipt.front.begins(&self.known)
    }

    fn ask<Q: Question>(&mut self, question: Q) -> Result<Reply<Q::Answer>, QueryFault>
        ensures goes_on { OnOk result (GoesOn self.old self.new) }
        ensures reply { IfOk result (λ r. r ≡ reply (watched_world self.new) (Q.answer_in question (watched_world self.new))) }
        ensures err { OnErr result (self.new ≡ self.old) }
    {
        let known = self.known.again();
        let (front, reply) = asking::ask(&mut self.reader, known, question)?;
        self.known = front;
        Ok(reply)
    }

    /// The row at a key, if there is one. Logarithmic in the number of rows; takes no memory, since value and policy
    /// are shared.
    pub fn get(
        &mut self,
        namespace: &NameRef<'_>,
        key: &KeyRef<'_>,
    ) -> Result<Reply<Option<Row>>, QueryFault>
        ensures goes_on { OnOk result (GoesOn self.old self.new) }
        ensures reply { IfOk result (λ r. r ≡ reply (watched_world self.new) (row_answer (watched_world self.new) (namespace.now, key.now))) }
        ensures err { OnErr result (self.new ≡ self.old) }
    {
        self.ask(RowAt {
            namespace: namespace.reborrow(),
            key: key.reborrow(),
        })
    }

    /// The rows of a namespace from a start to before an end, up to a limit; an empty end is no bound. Logarithmic in
    /// the number of rows, and linear in those that are answered; memory for a list of them, whose keys and values are
    /// shared.
    pub fn range(
        &mut self,
        alloc: Global,
        namespace: &NameRef<'_>,
        start: &BoundRef<'_>,
        end: &BoundRef<'_>,
        limit: usize,
    ) -> Result<Reply<RangeRows>, QueryFault>
        ensures goes_on { OnOk result (GoesOn self.old self.new) }
        ensures reply { IfOk result (λ r. r ≡ reply (watched_world self.new) (range_answer (watched_world self.new) namespace.now start.now end.now limit)) }
        ensures err { OnErr result (self.new ≡ self.old) }
    {
        self.ask(RowsIn {
            alloc,
            namespace: namespace.reborrow(),
            start: start.reborrow(),
            end: end.reborrow(),
            limit,
        })
    }

    /// The value writes and deletes of a key, the newest first. Linear in their number; memory for a list of them,
    /// whose values are shared.
    pub fn history(
        &mut self,
        alloc: Global,
        namespace: &NameRef<'_>,
        key: &KeyRef<'_>,
    ) -> Result<Reply<Items<HistoryEntry>>, QueryFault>
        ensures goes_on { OnOk result (GoesOn self.old self.new) }
        ensures reply { IfOk result (λ r. r ≡ reply (watched_world self.new) (history_answer (watched_world self.new) (namespace.now, key.now))) }
        ensures err { OnErr result (self.new ≡ self.old) }
    {
        self.ask(HistoryOf {
            alloc,
            namespace: namespace.reborrow(),
            key: key.reborrow(),
        })
    }

    /// Where an id was used first, with that transaction's flag. Constant time, no memory.
    pub fn flag_of(&mut self, id: &TxId) -> Result<Reply<Option<FirstUse>>, QueryFault>
        ensures goes_on { OnOk result (GoesOn self.old self.new) }
        ensures reply { IfOk result (λ r. r ≡ reply (watched_world self.new) (first_use_answer (watched_world self.new) id.now)) }
        ensures err { OnErr result (self.new ≡ self.old) }
    {
        self.ask(FirstUseOf { id: *id })
    }

    /// The canonical text of a chaincode's policy, if it has one. Logarithmic in the number of chaincodes, and linear
    /// in the text, in time and memory.
    pub fn definition(
        &mut self,
        alloc: Global,
        chaincode: &NameRef<'_>,
    ) -> Result<Reply<Option<PolicyText>>, QueryFault>
        ensures goes_on { OnOk result (GoesOn self.old self.new) }
        ensures reply { IfOk result (λ r. r ≡ reply (watched_world self.new) (definition_answer (watched_world self.new) chaincode.now)) }
        ensures err { OnErr result (self.new ≡ self.old) }
    {
        let question = DefinitionOf {
            alloc,
            chaincode: chaincode.reborrow(),
        };
        self.ask(question)
    }

    /// The block of a number, if there is one. Its bytes are shared; its flags are copied, with memory for them.
    pub fn block(
        &mut self,
        alloc: Global,
        number: u64,
    ) -> Result<Reply<Option<CommittedBlock>>, QueryFault>
        ensures goes_on { OnOk result (GoesOn self.old self.new) }
        ensures reply { IfOk result (λ r. r ≡ reply (watched_world self.new) (block_answer (watched_world self.new) number)) }
        ensures err { OnErr result (self.new ≡ self.old) }
    {
        self.ask(BlockOf { alloc, number })
    }

    /// The number of blocks. Constant time, no memory.
    pub fn height(&mut self) -> Result<Reply<u64>, QueryFault>
        ensures goes_on { OnOk result (GoesOn self.old self.new) }
        ensures reply { IfOk result (λ r. r ≡ reply (watched_world self.new) (height_answer (watched_world self.new))) }
        ensures err { OnErr result (self.new ≡ self.old) }
    {
        self.ask(Height)
    }
}
