//! A block on its way into a world: decoded, at the place of the next one, linked. Each step answers why not, so that the
//! order of refusals stands here: bytes that spell no block, the number, the previous hash, the data hash, the version.
ghost use Rattle.std.specs.Prelude.{◌≡◌, IfOk, MatchResult};
ghost use Rattle.header_hash.specs.Hashes.{data_hash_of};
ghost use Rattle.rules.specs.World as world;
ghost use Rattle.rules.specs.World.{World};
ghost use Rattle.block.specs.Grammar.{bytes_of};
ghost use Rattle.rules.specs.Linked.{HasDataHash, HasVersion, IsUnlinked, is_older};
ghost use Rattle.linking.specs.OnItsWay.{EndsAt, IsAtPlace, IsDecoded, IsNextOf, IsPlaced};

use block::{Block, BlockFault, BlockVersion, Header, Previous, decode_block};
use header_hash::data_hash;
use rules::Refused;
use std::alloc::{AllocError, Global};
use std::marker::Model;
use values::{Bytes, Hash, Shared, Slice};

/// A block with the bytes that spell it, both lent. A contract sees the block.
#[derive(Drop)]
pub struct DecodedBlock<'b> {
    bytes: &'b [u8],
    block: Block<'b>,
}

impl<'b> Model for DecodedBlock<'b> {
    ghost use Rattle.block.specs.declared.block.Block.{Block};
    ghost use Rattle.block.specs.Grammar.{Spells};

    ghost Value = { Block };

    ghost view = { λ d. d.block };

    ghost invariant = { λ d. Spells d.bytes.now d.block };
}

/// A decoded block, and the data hash of its transactions, which may be another one than it has in its header.
#[derive(Drop)]
pub struct HashedBlock<'b> {
    decoded: DecodedBlock<'b>,
    data_hash: Hash,
}

impl<'b> Model for HashedBlock<'b> {
    ghost use Rattle.std.specs.Prelude.{◌≡◌};
    ghost use Rattle.block.specs.declared.block.Block.{Block};
    ghost use Rattle.header_hash.specs.Hashes.{data_hash_of};

    ghost Value = { Block };

    ghost view = { λ h. h.decoded };

    ghost invariant = { λ h. h.data_hash ≡ data_hash_of h.decoded.txs };
}

/// A decoded block that was found at the place of the next one: by its number and its previous hash.
#[derive(Drop)]
pub struct PlacedBlock<'b> {
    decoded: DecodedBlock<'b>,
}

impl<'b> Model for PlacedBlock<'b> {
    ghost use Rattle.block.specs.declared.block.Block.{Block};

    ghost Value = { Block };

    ghost view = { λ p. p.decoded };
}

/// A block that was found to be the next one.
#[derive(Drop)]
pub struct LinkedBlock<'b> {
    decoded: DecodedBlock<'b>,
}

impl<'b> Model for LinkedBlock<'b> {
    ghost use Rattle.block.specs.declared.block.Block.{Block};
    ghost use Rattle.rules.specs.Linked.{HasDataHash};

    ghost Value = { Block };

    ghost view = { λ l. l.decoded };

    ghost invariant = { λ l. HasDataHash l.decoded };
}

fn read(alloc: Global, bytes: &[u8]) -> Result<Block<'_>, Refused>
    ensures { IsDecoded bytes.now result }
{
    match decode_block(alloc, bytes) {
        Ok(block) => Ok(block),
        Err(BlockFault::Memory) => Err(Refused::Memory),
        Err(fault) => Err(Refused::Malformed(fault)),
    }
}

/// What the next block has as its previous hash.
fn previous_from(last_header_hash: Option<Hash>) -> Previous
    ensures { result ≡ world.previous_from last_header_hash }
{
    match last_header_hash {
        None => Previous::Empty,
        Some(hash) => Previous::Hash(hash),
    }
}

/// Whether the block stands at the place of the next one: by its number, and then its previous hash.
fn check_place(
    block: &Block<'_>,
    height: u64,
    last_header_hash: Option<Hash>,
) -> Result<(), Refused>
    ensures { (w : World) → EndsAt w height last_header_hash → MatchResult result (λ _. IsAtPlace w block.now) (IsUnlinked w block.now) }
{
    let got = block.header.number;
    if got != height {
        return Err(Refused::WrongNumber { want: height, got });
    }
    if block.header.previous != previous_from(last_header_hash) {
        return Err(Refused::WrongPrevious);
    }
    Ok(())
}

/// Whether a block at its place is linked, whose transactions have this data hash.
fn check_data_hash(block: &Block<'_>, data_hash: Hash) -> Result<(), Refused>
    requires { data_hash ≡ data_hash_of block.now.txs }
    ensures { MatchResult result (λ _. HasDataHash block.now) (λ refused. (w : World) → IsAtPlace w block.now → IsUnlinked w block.now refused) }
{
    if block.header.data_hash != data_hash {
        return Err(Refused::WrongDataHash);
    }
    Ok(())
}

fn is_older(version: BlockVersion, last: BlockVersion) -> bool
    ensures { result ≡ is_older version last }
{
    version == BlockVersion::V1 && last == BlockVersion::V2
}

/// Whether a block at its place, whose data hash is right, is linked behind a block of this version.
fn check_version(block: &Block<'_>, last_version: BlockVersion) -> Result<(), Refused>
    ensures { (w : World) → world.last_version w ≡ last_version → IsAtPlace w block.now → HasDataHash block.now
        → MatchResult result (λ _. HasVersion w block.now) (IsUnlinked w block.now) }
{
    if is_older(block.version, last_version) {
        return Err(Refused::OldVersion);
    }
    Ok(())
}

impl<'b> DecodedBlock<'b> {
    /// The block that the bytes spell, or why they spell none. Costs what [`decode_block`] does.
    pub fn decode(alloc: Global, bytes: &'b [u8]) -> Result<DecodedBlock<'b>, Refused>
        ensures { IsDecoded bytes.now result }
    {
        let block = read(alloc, bytes)?;
        Ok(DecodedBlock { bytes, block })
    }

    /// The version of its grammar.
    pub fn version(&self) -> BlockVersion
        ensures { result ≡ self.now.version }
    {
        self.block.version
    }

    /// The bytes of its transactions, in order.
    pub fn txs(&self) -> &[Slice<'b>]
        ensures { result.now ≡ self.now.txs }
    {
        self.block.txs.as_slice()
    }

    /// A copy of its bytes, for all who keep the block.
    pub fn kept_bytes(&self, alloc: Global) -> Result<Shared<Bytes>, AllocError>
        ensures { IfOk result (λ kept. kept ≡ bytes_of self.now) }
    {
        Shared::new(alloc, Bytes::from_slice(alloc, self.bytes)?)
    }

    /// With the data hash of its transactions, which was made elsewhere.
    pub fn with_data_hash(self, data_hash: Hash) -> HashedBlock<'b>
        requires { data_hash ≡ data_hash_of self.txs }
        ensures { result ≡ self.entry }
    {
        HashedBlock {
            decoded: self,
            data_hash,
        }
    }

    /// The block, where it stands at the place of the next one of any world of this height and last header hash; else its first
    /// fault there: of its number, then of its previous hash. Constant time.
    pub fn at_place(
        self,
        height: u64,
        last_header_hash: Option<Hash>,
    ) -> Result<PlacedBlock<'b>, Refused>
        ensures same { IfOk result (λ placed. placed ≡ self.entry) }
        ensures place { (w : World) → EndsAt w height last_header_hash → IsPlaced w self.entry result }
    {
        check_place(&self.block, height, last_header_hash)?;
        Ok(PlacedBlock { decoded: self })
    }
}

impl<'b> PlacedBlock<'b> {
    /// The block without its place, for those who take in blocks of any world.
    pub fn into_decoded(self) -> DecodedBlock<'b>
        ensures { result ≡ self.entry }
    {
        self.decoded
    }

    /// The block, where it is the next one behind a block of this version. Hashes its transactions: linear in their bytes, and
    /// takes no memory.
    pub fn linked(self, last_version: BlockVersion) -> Result<LinkedBlock<'b>, Refused>
        ensures same { IfOk result (λ linked. linked ≡ self.entry) }
        ensures next { (w : World) → IsAtPlace w self.entry → world.last_version w ≡ last_version → IsNextOf w self.entry result }
    {
        let hash = data_hash(self.decoded.txs());
        self.linked_by(hash, last_version)
    }

    fn linked_by(
        self,
        data_hash: Hash,
        last_version: BlockVersion,
    ) -> Result<LinkedBlock<'b>, Refused>
        requires { data_hash ≡ data_hash_of self.txs }
        ensures same { IfOk result (λ linked. linked ≡ self.entry) }
        ensures next { (w : World) → IsAtPlace w self.entry → world.last_version w ≡ last_version → IsNextOf w self.entry result }
    {
        check_data_hash(&self.decoded.block, data_hash)?;
        check_version(&self.decoded.block, last_version)?;
        Ok(LinkedBlock {
            decoded: self.decoded,
        })
    }
}

impl<'b> HashedBlock<'b> {
    /// The block, where it is the next one of any world of this height, last header hash and last version; else its first fault
    /// there: of its place, as of [`DecodedBlock::at_place`], then of its data hash, then of its version. Constant time.
    pub fn linked(
        self,
        height: u64,
        last_header_hash: Option<Hash>,
        last_version: BlockVersion,
    ) -> Result<LinkedBlock<'b>, Refused>
        ensures same { IfOk result (λ linked. linked ≡ self.entry) }
        ensures next { (w : World) → EndsAt w height last_header_hash → world.last_version w ≡ last_version → IsNextOf w self.entry result }
    {
        let HashedBlock { decoded, data_hash } = self;
        decoded
            .at_place(height, last_header_hash)?
            .linked_by(data_hash, last_version)
    }
}

impl<'b> LinkedBlock<'b> {
    /// Its header.
    pub fn header(&self) -> &Header
        ensures { result.now ≡ self.now.header }
    {
        &self.decoded.block.header
    }

    /// The version of its grammar.
    pub fn version(&self) -> BlockVersion
        ensures { result ≡ self.now.version }
    {
        self.decoded.version()
    }

    /// The bytes of its transactions, in order.
    pub fn txs(&self) -> &[Slice<'b>]
        ensures { result.now ≡ self.now.txs }
    {
        self.decoded.txs()
    }

    /// A copy of its bytes, for all who keep the block.
    pub fn kept_bytes(&self, alloc: Global) -> Result<Shared<Bytes>, AllocError>
        ensures { IfOk result (λ kept. kept ≡ bytes_of self.now) }
    {
        self.decoded.kept_bytes(alloc)
    }
}
