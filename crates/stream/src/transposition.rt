// Bytes to bit streams and back: block j of a table holds the bit worth 2^j of each byte.
ghost use Rattle.std.specs.Prelude.{◌≡◌, ℕ, ◌+◌, ◌*◌, ◌^◌, ◌<◌, ◌≤◌, ◌⊎◌, length, slice_index};
ghost use Rattle.block.specs.Rows.{bit, bit_of};
ghost use Rattle.block.specs.Calls.{answered, none_row, Served};
ghost use Rattle.stream.specs.Tables.{rows, held, basis, Agrees, Transposes, Returns, RoundTrip, Keeps};

use crate::spread::spread;
use block::Block;
use refusal::Refusal;

// How many blocks hold the bits of a byte, and how many bytes make a group of places.
pub const BASIS: usize = 8;

// That the array has eight blocks still is a clause, as its callers are not told the length of an array of any kind.
fn clear<B: Block>(blocks: &mut [B; BASIS])
    ensures eight { length blocks.new ≡ 8 }
    ensures first { (j : ℕ) → j < 8 → rows B.Block.row blocks.new j ≡ none_row B.places }
{
    for block in blocks {
        *block = B::none();
    }
}

// Eight gathered bytes, the first the lowest, at the places 8k to 8k + 7: block j gets their bits worth 2^j.
fn deliver<B: Block>(blocks: &mut [B; BASIS], k: usize, gathered: u64)
    requires { Served B.places k }
    ensures eight { length blocks.new ≡ 8 }
    ensures inside { (j n : ℕ) → j < 8 → n < 8 → bit (rows B.Block.row blocks.new j) (8 * k + n) ≡ bit_of gathered (8 * n + j) }
    ensures outside { (j i : ℕ) → j < 8 → (i < 8 * k) ⊎ (8 * k + 8 ≤ i) → bit (rows B.Block.row blocks.new j) i ≡ bit (rows B.Block.row blocks.old j) i }
{
    let turned = spread(gathered);
    for (j, block) in blocks.iter_mut().enumerate() {
        *block = block.put(k, ((turned >> (8 * j)) & 0xff) as u8);
    }
}

// The eight bytes at the places 8k to 8k + 7, the first the lowest.
fn collect<B: Block>(blocks: &[B; BASIS], k: usize) -> u64
    requires { Served B.places k }
    ensures { (j n : ℕ) → j < 8 → n < 8 → bit_of result (8 * n + j) ≡ bit (rows B.Block.row blocks.now j) (8 * k + n) }
{
    let mut turned = 0u64;
    for (j, block) in blocks.iter().enumerate() {
        turned += (block.read(k) as u64) << (8 * j);
    }
    spread(turned)
}

// The blocks get the bytes' bits. The bytes are gone through with their index: nothing is done for each but to gather it, and every
// eighth turns what is gathered.
fn fill<B: Block>(blocks: &mut [B; BASIS], bytes: &[u8])
    requires { length bytes.now ≤ answered B.places }
    ensures eight { length blocks.new ≡ 8 }
    ensures first { (j : ℕ) → j < 8 → rows B.Block.row blocks.new j ≡ basis B.places bytes.now j }
{
    clear(blocks);
    let mut gathered = 0u64;
    for (i, byte) in bytes.iter().enumerate() {
        gathered += (*byte as u64) << (8 * (i % BASIS));
        if i % BASIS == BASIS - 1 {
            deliver(blocks, i / BASIS, gathered);
            gathered = 0;
        }
    }
    if bytes.len() % BASIS != 0 {
        deliver(blocks, bytes.len() / BASIS, gathered);
    }
}

// The buffer gets the bytes that the blocks hold, with its index, as `fill`.
fn write_back<B: Block>(blocks: &[B; BASIS], buffer: &mut [u8])
    requires { length buffer.old ≤ answered B.places }
    ensures { (i : ℕ) → i < length buffer.old → slice_index buffer.new i ≡ held (rows B.Block.row blocks.now) i }
{
    let mut gathered = 0u64;
    for (i, byte) in buffer.iter_mut().enumerate() {
        if i % BASIS == 0 {
            gathered = collect(blocks, i / BASIS);
        }
        *byte = ((gathered >> (8 * (i % BASIS))) & 0xff) as u8;
    }
}

// Whether a table and a count of bytes go together. Its length is tested before its first eight blocks are taken as an array:
// that as many blocks of any kind fit in memory is known only of a table that has them.
fn agree<B: Block>(blocks: usize, bytes: usize) -> Result<(), Refusal>
    ensures { Agrees blocks bytes (answered B.places) result }
{
    if blocks < BASIS {
        return Err(Refusal::TooFewBlocks);
    }
    if bytes > B::width() {
        return Err(Refusal::TooManyBytes);
    }
    Ok(())
}

// Blocks 0 to 7 of the table get the bytes' bits. Refused, the table as it was: a table of fewer than eight blocks, then
// more bytes than the answered width.
pub fn transpose<B: Block>(bytes: &[u8], table: &mut [B]) -> Result<(), Refusal>
    ensures { Transposes B.Block.row B.places bytes.now table.old table.new result }
{
    agree::<B>(table.len(), bytes.len())?;
    let blocks = table.first_chunk_mut::<BASIS>().unwrap();
    fill(blocks, bytes);
    Ok(())
}

// The buffer gets the bytes that blocks 0 to 7 of the table hold. Refused, the buffer as it was, as `transpose` is.
pub fn back<B: Block>(table: &[B], buffer: &mut [u8]) -> Result<(), Refusal>
    ensures { Returns B.Block.row B.places table.now buffer.old buffer.new result }
{
    agree::<B>(table.len(), buffer.len())?;
    let blocks = table.first_chunk::<BASIS>().unwrap();
    write_back(blocks, buffer);
    Ok(())
}

// Transposes the bytes and fills the buffer from the table: the bytes come back.
pub fn transpose_and_back<B: Block>(
    bytes: &[u8],
    table: &mut [B],
    buffer: &mut [u8],
) -> Result<(), Refusal>
    ensures bytes { RoundTrip (length table.old) (answered B.places) bytes.now buffer.old buffer.new result }
    ensures table { Keeps B.Block.row B.places bytes.now table.old table.new result }
{
    agree::<B>(table.len(), bytes.len().max(buffer.len()))?;
    transpose(bytes, table)?;
    back(table, buffer)
}
