// A conformance check that the maker of a block kind can run before proving it: each call is made on chosen rows, and
// its answer is compared with plain arithmetic on bytes.
//
// Answers are looked at through `read`, so a wrong `read` shows as a deviation of the call that is looked at first. Where
// a kind is wider than the answered width, only the places below it are seen.

#![tactic(auto)]

ghost use Rattle.std.specs.Prelude.{◌≡◌, ℕ, ◌+◌, ◌*◌, ◌/◌, ◌%◌, ◌<◌, Bool, true, length, is_ok, IfErr, slice_index};
ghost use Rattle.block.specs.Rows.{bit, tab, bit_of};
ghost use Rattle.block.specs.Calls.{answered, Served, First};
ghost use Rattle.conform.specs.Judged.{Agree, HasByte, Judged, SumJudged, call_of, made, written, repeated};

use block::{Block, WIDEST};

// The members of the interface.
#[derive(Clone, Copy, PartialEq, Eq, Debug)]
pub enum Call {
    Width,
    None,
    All,
    And,
    Or,
    Xor,
    Not,
    Advance,
    Add,
    Put,
    Read,
    First,
}

// A call that does not do what the interface says, and where that was seen: at a place, at the first place of a group,
// or, of a bit that falls out, at the width.
#[derive(Clone, Copy, PartialEq, Eq, Debug)]
pub struct Deviation {
    pub call: Call,
    pub place: usize,
}

// The calls that work place by place. They are values and not closures, since a deviation names its call, and what each
// call owes is said by its name.
#[derive(Clone, Copy)]
pub enum Logic {
    Nothing,
    Everything,
    And,
    Or,
    Xor,
    Not,
}

// Written and not derived, for its `from_gives`.
impl From<Logic> for Call {
    ghost from_gives = { λ op call. call ≡ call_of op };

    fn from(op: Logic) -> Call {
        match op {
            Logic::Nothing => Call::None,
            Logic::Everything => Call::All,
            Logic::And => Call::And,
            Logic::Or => Call::Or,
            Logic::Xor => Call::Xor,
            Logic::Not => Call::Not,
        }
    }
}

impl Logic {
    // What the call owes, at eight places.
    fn byte(self, x: u8, y: u8) -> u8
        ensures { (j : ℕ) → j < 8 → bit_of result j ≡ made self (bit_of x j) (bit_of y j) }
    {
        match self {
            Logic::Nothing => 0,
            Logic::Everything => 0xff,
            Logic::And => x & y,
            Logic::Or => x | y,
            Logic::Xor => x ^ y,
            Logic::Not => !x,
        }
    }

    // What the kind's own call answers.
    fn answer<B: Block>(self, a: B, b: B) -> B
        ensures { B.Block.row result ≡ tab B.Block.places (λ i. made self (bit (B.Block.row a) i) (bit (B.Block.row b) i)) }
    {
        match self {
            Logic::Nothing => B::none(),
            Logic::Everything => B::all(),
            Logic::And => a.and(b),
            Logic::Or => a.or(b),
            Logic::Xor => a.xor(b),
            Logic::Not => a.not(),
        }
    }
}

// A deviation where something does not hold.
fn expect(holds: bool, call: Call, place: usize) -> Result<(), Deviation>
    ensures passed { is_ok result ≡ holds }
    ensures found { IfErr result (λ d. (d.call ≡ call) × (d.place ≡ place)) }
{
    if holds {
        Ok(())
    } else {
        Err(Deviation { call, place })
    }
}

// How many groups are served.
fn groups<B: Block>() -> usize
    ensures { result ≡ answered B.Block.places / 8 }
{
    B::width() / 8
}

// Whether `answer` holds the bytes that `want` gives, group by group.
fn judge<B: Block, F: Fn(usize) -> u8>(call: Call, answer: B, want: F) -> Result<(), Deviation>
    requires { F.IsAlwaysCallable want }
    ensures { (row : ℕ → Bool) → ((k byte : ℕ) → Served B.Block.places k → F.post want k byte → HasByte row k byte) → Judged call (answered B.Block.places) (bit (B.Block.row answer)) row result }
{
    for k in 0..groups::<B>() {
        expect(answer.read(k) == want(k), call, 8 * k)?;
    }
    Ok(())
}

// Whether `answer` is what `op` makes of `a` and `b`.
pub fn judge_logic<B: Block>(op: Logic, a: B, b: B, answer: B) -> Result<(), Deviation>
    ensures { Judged (call_of op) (answered B.Block.places) (bit (B.Block.row answer)) (λ i. made op (bit (B.Block.row a) i) (bit (B.Block.row b) i)) result }
{
    judge(Call::from(op), answer, |k| op.byte(a.read(k), b.read(k)))
}

// Whether `answer` is the sum of `a`, `b` and a bit. An advance is the sum of a block with itself. What a group should
// hold depends on the carry of the groups before it, so this is a loop of its own and not a `judge`.
pub fn judge_sum<B: Block>(
    call: Call,
    a: B,
    b: B,
    enter: bool,
    answer: (B, bool),
) -> Result<(), Deviation>
    ensures { SumJudged call B.Block.places (B.Block.row a) (B.Block.row b) enter (B.Block.row answer.0) answer.1 result }
{
    let (total, out) = answer;
    let mut carry = enter;
    for k in 0..groups::<B>() {
        let (want, next) = a.read(k).carrying_add(b.read(k), carry);
        expect(total.read(k) == want, call, 8 * k)?;
        carry = next;
    }
    let width = B::width();
    expect(width == WIDEST || out == carry, call, width)
}

// The group `g` of `before` with a byte at the group `k`.
fn put_group<B: Block>(before: B, k: usize, byte: u8, g: usize) -> u8
    ensures { Served B.Block.places g → (j : ℕ) → j < 8 → bit_of result j ≡ written k byte (bit (B.Block.row before)) (8 * g + j) }
{
    if g == k { byte } else { before.read(g) }
}

// Whether `after` is `before` with a byte at the group `k`.
pub fn judge_put<B: Block>(before: B, k: usize, byte: u8, after: B) -> Result<(), Deviation>
    ensures { Judged Call.Put (answered B.Block.places) (bit (B.Block.row after)) (written k byte (bit (B.Block.row before))) result }
{
    judge(Call::Put, after, |g| put_group(before, k, byte, g))
}

// The byte at `k` of bytes that come over and over.
fn byte_at(bytes: &[u8], k: usize) -> u8
    ensures { result ≡ slice_index bytes.now (k % length bytes.now) }
{
    if bytes.is_empty() {
        return 0;
    }
    bytes[k % bytes.len()]
}

// Whether `block` holds the bytes over and over.
pub fn judge_row<B: Block>(bytes: &[u8], block: B) -> Result<(), Deviation>
    ensures { Judged Call.Put (answered B.Block.places) (bit (B.Block.row block)) (repeated bytes.now) result }
{
    judge(Call::Put, block, |k| byte_at(bytes, k))
}

// Each check from here on has one promise, that a lawful kind passes. The two blocks of a call stay two parameters, as in the call.
fn check_logic<B: Block>(op: Logic, a: B, b: B) -> Result<(), Deviation>
    ensures { is_ok result ≡ true }
{
    judge_logic(op, a, b, op.answer(a, b))
}

fn check_advance<B: Block>(a: B, enter: bool) -> Result<(), Deviation>
    ensures { is_ok result ≡ true }
{
    judge_sum(Call::Advance, a, a, enter, a.advance(enter))
}

fn check_add<B: Block>(a: B, b: B, enter: bool) -> Result<(), Deviation>
    ensures { is_ok result ≡ true }
{
    judge_sum(Call::Add, a, b, enter, a.add(b, enter))
}

// A group that is not served is left alone by put and is 0 to read.
fn check_group<B: Block>(block: B, k: usize, byte: u8) -> Result<(), Deviation>
    ensures { is_ok result ≡ true }
{
    judge_put(block, k, byte, block.put(k, byte))?;
    expect(
        k < groups::<B>() || block.read(k) == 0,
        Call::Read,
        B::width(),
    )
}

// A block with the bytes over and over, written over another.
fn fill<B: Block>(base: B, bytes: &[u8]) -> B
    ensures { Agree (answered B.Block.places) (bit (B.Block.row result)) (repeated bytes.now) }
{
    let mut block = base;
    for k in 0..groups::<B>() {
        block = block.put(k, byte_at(bytes, k));
    }
    block
}

fn check_fill<B: Block>(base: B, bytes: &[u8]) -> Result<(), Deviation>
    ensures { is_ok result ≡ true }
{
    judge_row(bytes, fill(base, bytes))
}

// Whether the place `i` holds a one.
fn holds<B: Block>(block: B, i: usize) -> bool
    ensures { i < answered B.Block.places → result ≡ bit (B.Block.row block) i }
{
    (block.read(i / 8) >> (i % 8)) % 2 == 1
}

// The first one from `i` on, where `later` is the first from the next place on.
fn first_from<B: Block>(block: B, i: usize, later: Option<usize>) -> Option<usize>
    ensures { i < answered B.Block.places → First B.Block.places (B.Block.row block) (i + 1) later → First B.Block.places (B.Block.row block) i result }
{
    if holds(block, i) { Some(i) } else { later }
}

fn check_first<B: Block>(block: B, i: usize, want: Option<usize>) -> Result<(), Deviation>
    ensures { First B.Block.places (B.Block.row block) i want → is_ok result ≡ true }
{
    expect(block.first(i) == want, Call::First, i)
}

// From every place, the last first, and from beyond.
fn check_firsts<B: Block>(block: B) -> Result<(), Deviation>
    ensures { is_ok result ≡ true }
{
    let width = B::width();
    check_first(block, width, None)?;
    check_first(block, width + 1, None)?;
    check_first(block, usize::MAX, None)?;
    let mut want = None;
    for i in (0..width).rev() {
        want = first_from(block, i, want);
        check_first(block, i, want)?;
    }
    Ok(())
}

// What falls out of all and of none is known at every width: a carry goes through all ones to the end.
fn check_out<B: Block>(enter: bool) -> Result<(), Deviation>
    ensures { is_ok result ≡ true }
{
    let place = B::width();
    let (_, one) = B::all().advance(enter);
    expect(one, Call::Advance, place)?;
    let (_, zero) = B::none().advance(enter);
    expect(!zero, Call::Advance, place)?;
    let (_, carry) = B::all().add(B::none(), enter);
    expect(carry == enter, Call::Add, place)
}

fn check_width<B: Block>() -> Result<(), Deviation>
    ensures { is_ok result ≡ true }
{
    let width = B::width();
    expect(
        width % 8 == 0 && (8..=WIDEST).contains(&width),
        Call::Width,
        width,
    )
}

fn check_pair<B: Block>(a: B, b: B) -> Result<(), Deviation>
    ensures { is_ok result ≡ true }
{
    check_logic(Logic::And, a, b)?;
    check_logic(Logic::Or, a, b)?;
    check_logic(Logic::Xor, a, b)?;
    check_logic(Logic::Not, a, b)?;
    check_advance(a, false)?;
    check_advance(a, true)?;
    check_add(a, b, false)?;
    check_add(a, b, true)
}

// A one alone, beside all ones.
fn check_single<B: Block>(p: usize) -> Result<(), Deviation>
    ensures { is_ok result ≡ true }
{
    if p >= B::width() {
        return Ok(());
    }
    let single = B::none().put(p / 8, 1 << (p % 8));
    check_pair(single, B::all())?;
    check_pair(B::all(), single)?;
    check_firsts(single)
}

// Every place of a kind of up to 256; past that those next to a power of two, since a border of a byte, a word or a half
// is one, and the last.
fn check_singles<B: Block>() -> Result<(), Deviation>
    ensures { is_ok result ≡ true }
{
    for p in 0..256 {
        check_single::<B>(p)?;
    }
    for n in 8u32..64 {
        let p = 1 << n;
        check_single::<B>(p - 1)?;
        check_single::<B>(p)?;
    }
    check_single::<B>(B::width() - 1)
}

// Every group of such a kind, past that those next to a power of two, and groups that are not served: the next ones and
// those whose places would not fit a number.
fn check_groups<B: Block>(block: B) -> Result<(), Deviation>
    ensures { is_ok result ≡ true }
{
    for k in 0..32 {
        check_group(block, k, 0x69)?;
    }
    for n in 5u32..64 {
        let k = 1 << n;
        check_group(block, k - 1, 0x96)?;
        check_group(block, k, 0x96)?;
    }
    check_group(block, groups::<B>(), 0xff)?;
    check_group(block, groups::<B>() + 1, 0xff)?;
    check_group(block, usize::MAX, 0xff)
}

// Noise of an odd length.
const NOISE: &[u8] =
    b"\x9e\x37\x79\xb9\x7f\x4a\x7c\x15\xf3\x9c\xc0\x60\x5c\xed\xc8\x34\x10\x82\x27\x6b\xa2\x72\x51\xf8\x6c";

// The rows by their bytes, which come over and over: none, all, every other place, runs over the borders of bytes, and
// noise.
const ROWS: [&[u8]; 9] = [
    b"\x00",
    b"\xff",
    b"\x55",
    b"\xaa",
    b"\xf0\x0f",
    b"\xc0\xff\x03\x00\x00",
    b"\x80\x01\x7f\xfe",
    b"\xff\x00\x00\x00\x00\x00\x00\xff\xff",
    NOISE,
];

// A row beside another, each written over another.
fn check_row<B: Block>(before: &[u8], bytes: &[u8]) -> Result<(), Deviation>
    ensures { is_ok result ≡ true }
{
    check_fill(B::all(), before)?;
    let b = fill(B::all(), before);
    check_fill(b, bytes)?;
    let a = fill(b, bytes);
    check_pair(a, b)?;
    check_pair(b, a)?;
    check_firsts(a)
}

// Whether a kind keeps to the interface, as far as chosen rows show it; a lawful kind does.
pub fn check_kind<B: Block>() -> Result<(), Deviation>
    ensures { is_ok result ≡ true }
{
    check_width::<B>()?;
    check_logic(Logic::Nothing, B::none(), B::none())?;
    check_logic(Logic::Everything, B::all(), B::all())?;
    check_out::<B>(false)?;
    check_out::<B>(true)?;
    check_pair(B::all(), B::none())?;
    let mut before = NOISE;
    for bytes in ROWS {
        check_row::<B>(before, bytes)?;
        before = bytes;
    }
    check_groups(fill(B::none(), NOISE))?;
    check_singles::<B>()
}
