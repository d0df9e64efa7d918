//! What the files hold, each read and checked before the next.
ghost use Rattle.std.specs.Prelude.{◌≡◌, Ok, IfOk, IfErr, Some};
ghost use Rattle.std.specs.Str.{IsUtf8};
ghost use Rattle.channel.specs.Text.{configuration_of};
ghost use Rattle.text_lines.specs.Utf8.{first_bad_line};
ghost use Rattle.command_files.specs.Failing.{Because, ChannelFails, ConfigurationFails, FilesFail, HasChannelFault, InputsFail, IsUnread, KeysFail, at_fault, line};
ghost use Rattle.command_files.specs.Reading.{AreHeld, HoldsChannel, HoldsKeys, HoldConfiguration};

use crate::fault::Fault;
use crate::files::Files;
use channel::Channel;
use cli_words::{ConfigurationPaths, LedgerPaths};
use key_book::KeyBook;
use std::alloc::Global;
use text_lines::text_of;
use values::Bytes;

/// What each subcommand begins with.
#[derive(Drop)]
pub struct Configuration {
    pub channel: Channel,
    pub keys: KeyBook,
}

/// What a ledger is made of.
#[derive(Drop)]
pub struct Inputs {
    pub configuration: Configuration,
    pub blocks: Vec<Bytes>,
}

/// What the file of this path holds. An `Err` names the path, or is want of memory, which is linear in the file.
pub fn read_file<'a, F: Files>(alloc: Global, files: &F, path: &'a str) -> Result<Bytes, Fault<'a>>
    ensures ok { IfOk result (λ bytes. F.holds files.now path.now bytes) }
    ensures err { IfErr result (Because (IsUnread (F.unreadable files.now path.now) path.now)) }
{
    files
        .read(alloc, path)
        .map_err(|fault| Fault::of_file(path, fault))
}

/// The text in the bytes of the file of this path. An `Err` is the first line that isn't UTF-8, which so goes before
/// every other fault of the file. Takes no memory.
pub fn text_in<'a, 'b>(path: &'a str, bytes: &'b Bytes) -> Result<&'b str, Fault<'a>>
    ensures ok { IfOk result (λ text. (text.now ≡ bytes.now) × IsUtf8 bytes.now) }
    ensures err { IfErr result (λ fault. ¬ (IsUtf8 bytes.now) × (at_fault fault ≡ Some (line path.now (first_bad_line bytes.now)))) }
{
    text_of(bytes.as_slice()).map_err(|line| Fault::Line(path, line))
}

// The channel that a text configures, which the file of this path holds.
fn channel_of<'a>(alloc: Global, path: &'a str, text: &str) -> Result<Channel, Fault<'a>>
    ensures ok { IfOk result (λ channel. configuration_of text.now ≡ Ok channel) }
    ensures err { IfErr result (Because (HasChannelFault path.now text.now)) }
{
    match Channel::read(alloc, text) {
        Ok(channel) => Ok(channel),
        Err(fault) => Err(Fault::of_channel(path, fault)),
    }
}

/// The path of a channel's file, and what it holds, from which more than one channel can be made.
#[derive(Drop)]
pub struct ChannelFile<'a> {
    path: &'a str,
    bytes: Bytes,
}

impl<'a> ChannelFile<'a> {
    /// Reads the file of this path. An `Err` names the path, or is want of memory, which is linear in the file.
    pub fn read<F: Files>(
        alloc: Global,
        files: &F,
        path: &'a str,
    ) -> Result<ChannelFile<'a>, Fault<'a>>
        ensures ok { IfOk result (λ file. F.holds files.now path.now file.bytes) }
        ensures err { IfErr result (Because (IsUnread (F.unreadable files.now path.now) path.now)) }
    {
        let bytes = read_file(alloc, files, path)?;
        Ok(ChannelFile { path, bytes })
    }

    /// The channel that its text configures. The memory is linear in it.
    pub fn channel(&self, alloc: Global) -> Result<Channel, Fault<'a>>
        ensures { IfOk result (λ channel. configuration_of self.now.bytes ≡ Ok channel) }
    {
        channel_of(alloc, self.path, text_in(self.path, &self.bytes)?)
    }
}

fn read_channel<'a, F: Files>(alloc: Global, files: &F, path: &'a str) -> Result<Channel, Fault<'a>>
    ensures ok { IfOk result (HoldsChannel (F.holds files.now path.now)) }
    ensures err { IfErr result (Because (ChannelFails (F.holds files.now path.now) (F.unreadable files.now path.now) path.now)) }
{
    let bytes = read_file(alloc, files, path)?;
    channel_of(alloc, path, text_in(path, &bytes)?)
}

/// The keys that the file of this path holds. An `Err` names the path, and may name a line, or is want of memory, which is
/// linear in the file.
pub fn read_keys<'a, F: Files>(
    alloc: Global,
    files: &F,
    path: &'a str,
) -> Result<KeyBook, Fault<'a>>
    ensures ok { IfOk result (HoldsKeys (F.holds files.now path.now)) }
    ensures err { IfErr result (Because (KeysFail (F.holds files.now path.now) (F.unreadable files.now path.now) path.now)) }
{
    let bytes = read_file(alloc, files, path)?;
    KeyBook::read(alloc, text_in(path, &bytes)?).map_err(|fault| Fault::of_key_book(path, fault))
}

impl Configuration {
    /// Reads the channel and then the keys, and ends at the first fault. The memory is linear in the files' bytes.
    pub fn read<'a, F: Files>(
        alloc: Global,
        files: &F,
        paths: &ConfigurationPaths<'a>,
    ) -> Result<Configuration, Fault<'a>>
        ensures ok { IfOk result (λ configuration. HoldConfiguration (F.holds files.now paths.now.channel.now) (F.holds files.now paths.now.keys.now) configuration.channel configuration.keys) }
        ensures err { IfErr result (Because (ConfigurationFails (F.holds files.now) (F.unreadable files.now) paths.now)) }
    {
        let channel = read_channel(alloc, files, paths.channel)?;
        let keys = read_keys(alloc, files, paths.keys)?;
        Ok(Configuration { channel, keys })
    }
}

/// What the files of these paths hold, in their order. Ends at the first fault. The memory is linear in their bytes.
pub fn read_files<'a, F: Files>(
    alloc: Global,
    files: &F,
    paths: &Vec<&'a str>,
) -> Result<Vec<Bytes>, Fault<'a>>
    ensures ok { IfOk result (λ all. AreHeld (λ path. F.holds files.now path.now) paths.now.items all.items) }
    ensures err { IfErr result (Because (FilesFail (λ path. F.holds files.now path.now) (λ path. IsUnread (F.unreadable files.now path.now) path.now) paths.now.items)) }
{
    let mut all = Vec::new(alloc);
    for path in paths {
        all.push(read_file(alloc, files, path)?)?;
    }
    Ok(all)
}

impl Inputs {
    /// Reads the channel, the keys, and the blocks in their order, and ends at the first fault. The memory is linear in
    /// the files' bytes.
    pub fn read<'a, F: Files>(
        alloc: Global,
        files: &F,
        paths: &LedgerPaths<'a>,
    ) -> Result<Inputs, Fault<'a>>
        ensures blocks { IfOk result (λ inputs. AreHeld (λ path. F.holds files.now path.now) paths.now.blocks.items inputs.blocks.items) }
        ensures configuration { IfOk result (λ inputs. HoldConfiguration (F.holds files.now paths.now.configuration.channel.now) (F.holds files.now paths.now.configuration.keys.now) inputs.configuration.channel inputs.configuration.keys) }
        ensures err { IfErr result (Because (InputsFail (F.holds files.now) (F.unreadable files.now) paths.now)) }
    {
        let configuration = Configuration::read(alloc, files, &paths.configuration)?;
        let blocks = read_files(alloc, files, &paths.blocks)?;
        Ok(Inputs {
            configuration,
            blocks,
        })
    }
}
