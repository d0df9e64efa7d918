//! What may be asked of a world.
ghost use Rattle.std.specs.Prelude.{◌≡◌, IfOk};
ghost use Rattle.rules.specs.Answers.{range_answer};

use crate::answers::{PolicyText, RangeRows};
use crate::copies::{copied_block, copied_entries, copied_rows};
use rules::{CommittedBlock, FirstUse, HistoryEntry, Row, share_row};
use std::alloc::{AllocError, Global};
use transaction::TxId;
use values::{BoundRef, Items, KeyRef, NameRef};
use world::World;

/// A question has one answer in each world.
pub(crate) trait Question: Drop {
    ghost use Rattle.rules.specs.World as world;

    type Answer: Drop;

    ghost answer_in: { Self → world.World → Self.Answer };

    fn ask(&self, world: &World) -> Result<Self::Answer, AllocError>
        ensures { IfOk result (λ answer. answer ≡ answer_in self.now world.now) };
}

#[derive(Drop)]
pub(crate) struct RowAt<'a> {
    pub namespace: NameRef<'a>,
    pub key: KeyRef<'a>,
}

impl<'a> Question for RowAt<'a> {
    ghost use Rattle.rules.specs.Answers.{row_answer};

    type Answer = Option<Row>;

    ghost answer_in = { λ q w. row_answer w (q.namespace, q.key) };

    fn ask(&self, world: &World) -> Result<Option<Row>, AllocError> {
        share_row(world.row(&self.namespace, &self.key))
    }
}

#[derive(Drop)]
pub(crate) struct RowsIn<'a> {
    pub alloc: Global,
    pub namespace: NameRef<'a>,
    pub start: BoundRef<'a>,
    pub end: BoundRef<'a>,
    pub limit: usize,
}

impl<'a> Question for RowsIn<'a> {
    ghost use Rattle.rules.specs.Answers.{range_answer};

    type Answer = RangeRows;

    ghost answer_in = { λ q w. range_answer w q.namespace q.start q.end q.limit };

    fn ask(&self, world: &World) -> Result<RangeRows, AllocError> {
        range_of(
            self.alloc,
            world,
            &self.namespace,
            &self.start,
            &self.end,
            self.limit,
        )
    }
}

/// The rows of a range, copied.
fn range_of<'a>(
    alloc: Global,
    world: &'a World,
    namespace: &NameRef<'a>,
    start: &BoundRef<'a>,
    end: &BoundRef<'a>,
    limit: usize,
) -> Result<RangeRows, AllocError>
    ensures { IfOk result (λ rows. rows ≡ range_answer world.now namespace.now start.now end.now limit) }
{
    let lent = world.range(alloc, namespace, start, end, limit)?;
    Ok(RangeRows {
        rows: copied_rows(alloc, lent.rows.as_slice())?,
        more: lent.more,
    })
}

#[derive(Drop)]
pub(crate) struct HistoryOf<'a> {
    pub alloc: Global,
    pub namespace: NameRef<'a>,
    pub key: KeyRef<'a>,
}

impl<'a> Question for HistoryOf<'a> {
    ghost use Rattle.rules.specs.Answers.{history_answer};

    type Answer = Items<HistoryEntry>;

    ghost answer_in = { λ q w. history_answer w (q.namespace, q.key) };

    fn ask(&self, world: &World) -> Result<Items<HistoryEntry>, AllocError> {
        copied_entries(self.alloc, world.history(&self.namespace, &self.key))
    }
}

#[derive(Drop)]
pub(crate) struct FirstUseOf {
    pub id: TxId,
}

impl Question for FirstUseOf {
    ghost use Rattle.rules.specs.Answers.{first_use_answer};

    type Answer = Option<FirstUse>;

    ghost answer_in = { λ q w. first_use_answer w q.id };

    fn ask(&self, world: &World) -> Result<Option<FirstUse>, AllocError> {
        Ok(world.flag_of(&self.id))
    }
}

#[derive(Drop)]
pub(crate) struct DefinitionOf<'a> {
    pub alloc: Global,
    pub chaincode: NameRef<'a>,
}

impl<'a> Question for DefinitionOf<'a> {
    ghost use Rattle.rules.specs.Answers.{definition_answer};

    type Answer = Option<PolicyText>;

    ghost answer_in = { λ q w. definition_answer w q.chaincode };

    fn ask(&self, world: &World) -> Result<Option<PolicyText>, AllocError> {
        match world.definitions().of(&self.chaincode) {
            None => Ok(None),
            Some(policy) => Ok(Some(PolicyText::of(self.alloc, policy)?)),
        }
    }
}

#[derive(Drop)]
pub(crate) struct BlockOf {
    pub alloc: Global,
    pub number: u64,
}

impl Question for BlockOf {
    ghost use Rattle.rules.specs.Answers.{block_answer};

    type Answer = Option<CommittedBlock>;

    ghost answer_in = { λ q w. block_answer w q.number };

    fn ask(&self, world: &World) -> Result<Option<CommittedBlock>, AllocError> {
        copied_block(self.alloc, world.block(self.number))
    }
}

#[derive(Drop)]
pub(crate) struct Height;

impl Question for Height {
    ghost use Rattle.rules.specs.Answers.{height_answer};

    type Answer = u64;

    ghost answer_in = { λ q w. height_answer w };

    fn ask(&self, world: &World) -> Result<u64, AllocError> {
        Ok(world.height())
    }
}
