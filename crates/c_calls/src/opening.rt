//! Ledgers are opened and closed.
ghost use Rattle.std.specs.Prelude.{◌≡◌, ◌≢◌, Ok, None, Some, IfOk, IfErr};
ghost use Rattle.channel.specs.Text.{configuration_of};
ghost use Rattle.key_book.specs.BookText.{book_of};
ghost use Rattle.rules.specs.World.{empty_world};
ghost use Rattle.c_handle.specs.declared.kept.Kept.{Kept};
ghost use Rattle.c_calls.specs.Opened.{IsOpened, IsNoChannel, IsNoBook, IsNotOpened};

use crate::codes::{MEMORY, NO_CHANNEL, NO_KEYS, NO_TEXT, OK};
use c_handle::{Handle, Kept, SharedLedger};
use channel::{Channel, ChannelFault};
use key_book::{KeyBook, KeyBookFault};
use std::alloc::Global;
use values::Shared;

fn channel_in(alloc: Global, text: &[u8]) -> Result<Channel, u32>
    ensures channel { IfOk result (λ channel. configuration_of text.now ≡ Ok channel) }
    ensures code { IfErr result (IsNoChannel text.now) }
{
    let Ok(text) = std::str::from_utf8(text) else {
        return Err(NO_TEXT);
    };
    match Channel::read(alloc, text) {
        Ok(channel) => Ok(channel),
        Err(ChannelFault::Memory) => Err(MEMORY),
        Err(_) => Err(NO_CHANNEL),
    }
}

fn book_in(alloc: Global, text: &[u8]) -> Result<KeyBook, u32>
    ensures book { IfOk result (λ book. book_of text.now ≡ Ok book) }
    ensures code { IfErr result (IsNoBook text.now) }
{
    let Ok(text) = std::str::from_utf8(text) else {
        return Err(NO_TEXT);
    };
    match KeyBook::read(alloc, text) {
        Ok(keys) => Ok(keys),
        Err(KeyBookFault::Memory) => Err(MEMORY),
        Err(KeyBookFault::Line(_)) => Err(NO_KEYS),
    }
}

fn boxed(alloc: Global, channel: Channel, keys: KeyBook) -> Result<Box<Kept>, u32>
    ensures ledger { IfOk result (λ kept. (kept.value.ledger.channel ≡ channel) × (kept.value.ledger.world ≡ empty_world channel.definitions)) }
    ensures keys { IfOk result (λ kept. kept.value.keys ≡ keys) }
    ensures code { IfErr result (λ code. code ≡ MEMORY) }
{
    let Ok(ledger) = SharedLedger::open(alloc, channel) else {
        return Err(MEMORY);
    };
    let Ok(keys) = Shared::new(alloc, keys) else {
        return Err(MEMORY);
    };
    match Box::new(alloc, Kept { ledger, keys }) {
        Ok(kept) => Ok(kept),
        Err(_) => Err(MEMORY),
    }
}

fn opened(alloc: Global, channel: &[u8], keys: &[u8]) -> Result<Box<Kept>, u32>
    ensures opened { IfOk result (λ kept. IsOpened channel.now keys.now kept.value) }
    ensures code { IfErr result (IsNotOpened channel.now keys.now) }
{
    let channel = channel_in(alloc, channel)?;
    let keys = book_in(alloc, keys)?;
    boxed(alloc, channel, keys)
}

/// Opens the ledger of height 0 of a channel text, with a text of keys, which is empty where the caller checks all signatures. What
/// the handle held is closed. A code other than 0 has changed nothing.
pub fn fabcommit_open(alloc: Global, handle: &mut Handle, channel: &[u8], keys: &[u8]) -> u32
    ensures opened { result ≡ OK → (kept : Kept) × (handle.new.held.value ≡ Some kept) × IsOpened channel.now keys.now kept }
    ensures not_opened { result ≢ OK → IsNotOpened channel.now keys.now result × (handle.new.held.value ≡ handle.old.held.value) }
{
    match opened(alloc, channel, keys) {
        Ok(kept) => {
            handle.put(kept);
            OK
        }
        Err(code) => code,
    }
}

/// Frees what the handle holds. It may be opened again.
pub fn fabcommit_close(alloc: Global, handle: &mut Handle)
    ensures { handle.new.held.value ≡ None }
{
    drop(handle.take(alloc));
}
