//! What a script says so far.
ghost use Rattle.std.specs.Prelude.{◌≡◌, Ok, OnOk};
ghost use Rattle.scripts.specs.Script as spec;
ghost use Rattle.scripts.specs.Taking.{Takes};

use crate::draft::Draft;
use crate::lines::{is_update, read_line};
use crate::saying::{Entry, Saying};
use crate::script::Item;
use block::MAX_TXS;
use key_book::KeyBook;
use std::alloc::{AllocError, Global};
use text_lines::{Statement, first_part};
use transaction::{BlockVersion, Identity, OwnedIdentity};
use values::{Bytes, Items, Name};

// The items that ended, and the transaction or update that is open.
#[derive(Drop)]
pub(crate) struct SoFar {
    pub(crate) items: Items<Item>,
    pub(crate) drafting: Option<Draft>,
}

fn can_sign(keys: &KeyBook, identity: &Identity<'_>) -> bool
    ensures { result ≡ spec.can_sign keys.now identity.now }
{
    keys.contains(identity)
}

fn ends_before(version: BlockVersion, line: &[u8]) -> bool
    ensures { result ≡ spec.ends_before version line.now }
{
    let (word, _) = first_part(line);
    word == b"tx".as_slice() || word == b"raw".as_slice() || is_update(version, word)
}

impl SoFar {
    pub(crate) fn new(alloc: Global) -> SoFar
        ensures { result ≡ spec.nothing_said }
    {
        SoFar {
            items: Items::new(alloc),
            drafting: None,
        }
    }

    pub(crate) fn end_open(&mut self) -> Result<(), AllocError>
        ensures { OnOk result (self.new ≡ spec.ended self.old) }
    {
        if let Some(draft) = self.drafting.take() {
            self.items.push(Item::Drafted(draft))?;
        }
        Ok(())
    }

    // Ends the one that is open where the line does so.
    pub(crate) fn go_before(&mut self, version: BlockVersion, line: &[u8]) -> Result<(), AllocError>
        ensures { OnOk result (self.new ≡ spec.before version line.now self.old) }
    {
        if ends_before(version, line) {
            self.end_open()?;
        }
        Ok(())
    }

    // The draft is open from then on, where its creator is in the book and there is room for it.
    fn open_draft(&mut self, keys: &KeyBook, draft: Draft) -> bool
        ensures { Takes (Ok result) self.old self.new (spec.with_draft keys.now draft self.old) }
    {
        if !can_sign(keys, &draft.creator()) || self.items.len() >= MAX_TXS {
            return false;
        }
        self.drafting = Some(draft);
        true
    }

    fn add_raw(&mut self, bytes: Bytes) -> Result<bool, AllocError>
        ensures { Takes result self.old self.new (spec.with_raw bytes self.old) }
    {
        if self.items.len() >= MAX_TXS {
            return Ok(false);
        }
        self.items.push(Item::Raw(bytes))?;
        self.drafting = None;
        Ok(true)
    }

    fn add_namespace(&mut self, alloc: Global, name: Name) -> Result<bool, AllocError>
        ensures { Takes result self.old self.new (spec.in_open (spec.with_namespace name) self.old) }
    {
        match &mut self.drafting {
            Some(draft) => draft.add_namespace(alloc, name),
            None => Ok(false),
        }
    }

    fn add_entry(&mut self, entry: Entry) -> Result<bool, AllocError>
        ensures { Takes result self.old self.new (spec.in_open (spec.with_addition entry) self.old) }
    {
        match &mut self.drafting {
            Some(draft) => draft.add_entry(entry),
            None => Ok(false),
        }
    }

    fn add_endorser(&mut self, keys: &KeyBook, endorser: OwnedIdentity) -> Result<bool, AllocError>
        ensures { Takes result self.old self.new (spec.with_signer keys.now endorser self.old) }
    {
        if !can_sign(keys, &endorser.lend()) {
            return Ok(false);
        }
        match &mut self.drafting {
            Some(draft) => draft.add_endorser(endorser),
            None => Ok(false),
        }
    }

    // Takes in what a line says. A faulty line leaves the items as they were.
    fn take_in(
        &mut self,
        alloc: Global,
        keys: &KeyBook,
        line: u64,
        saying: Saying,
    ) -> Result<bool, AllocError>
        ensures { Takes result self.old self.new (spec.said_by keys.now line self.old saying) }
    {
        match saying {
            Saying::Begins(creator, nonce, chaincode, content) => {
                let draft = Draft {
                    line,
                    creator,
                    nonce,
                    chaincode,
                    content,
                    endorsers: Items::new(alloc),
                };
                Ok(self.open_draft(keys, draft))
            }
            Saying::Raw(bytes) => self.add_raw(bytes),
            Saying::Namespace(name) => self.add_namespace(alloc, name),
            Saying::Adds(entry) => self.add_entry(entry),
            Saying::Endorse(endorser) => self.add_endorser(keys, endorser),
        }
    }

    // Takes in a line before which nothing ends any more.
    pub(crate) fn say(
        &mut self,
        alloc: Global,
        version: BlockVersion,
        keys: &KeyBook,
        statement: &Statement<'_>,
    ) -> Result<bool, AllocError>
        ensures { Takes result self.old self.new (spec.said_with version keys.now statement.now.line self.old statement.now.bytes.now) }
    {
        let Some(saying) = read_line(alloc, version, statement.bytes)? else {
            return Ok(false);
        };
        self.take_in(alloc, keys, statement.line, saying)
    }
}
