ghost use Rattle.block.specs.Grammar.{Spells};

use block::Block;
use cli_lines::write_known;
use cli_values::Format;
use command_files::Fault;
use known_blocks::how_known;
use std::io::Write;
use world::World;

/// Writes how the block, which these bytes spell, is related to the accepted block of its number; nothing if its number
/// was not accepted. Takes no memory.
pub(crate) fn write_relation<'a, W: Write>(
    out: &mut W,
    format: Format,
    world: &World,
    bytes: &[u8],
    block: &Block<'_>,
) -> Result<(), Fault<'a>>
    requires { Spells bytes.now block.now }
{
    if let Some(known) = how_known(world, bytes, block) {
        write_known(out, format, &known)?;
    }
    Ok(())
}
