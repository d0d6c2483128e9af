//! The log of a book: its acts, as they are sealed.
ghost use Rattle.std.specs.Prelude.{◌≡◌, ◌+◌, ◌<◌, ◌^◌, IfOk, length, map, option_map, string_bytes};
ghost use Rattle.std.specs.List.{AllByRecursion, slice_range};
ghost use Rattle.std.specs.Thread.{IsSync};
ghost use Rattle.rp_book.specs.Act.{act_of};
ghost use Rattle.rp_seal.specs.Act.{IsEncodable, act_bytes, entry_of};
ghost use Rattle.rp_seal.specs.Hash.{bytes_of, hashes_of};
ghost use Rattle.rp_seal.specs.Merkle.{leaf_hash};
ghost use Rattle.rp_sealed_book.specs.Log.{entries_from, entry_at, leaves_of, log_of, start_after};

use rp_book::Act;
use rp_seal::{NodeHash, SealedAct, encode_act, leaf_hash};
use std::alloc::{AllocError, Global};
use std::thread::{Threads, join};

/// How many threads hash at once, at most. Each needs a stack of its own.
const MOST_THREADS: usize = 8;

/// How many acts one thread takes at most, as long as more threads may be started.
const GRAIN: usize = 1024;

/// Returns the bytes of `text` from `start` to `end`, as far as there are such bytes.
fn slice(text: &[u8], start: usize, end: usize) -> &[u8]
    ensures { result.now ≡ slice_range text.now start end }
{
    let end = end.min(text.len());
    let start = start.min(end);
    &text[start..end]
}

/// Returns the text that `text` owns.
fn borrowed(text: &Option<String>) -> Option<&str>
    ensures { option_map (λ t. t.now) result ≡ option_map string_bytes text.now }
{
    match text {
        Some(text) => Some(text.as_str()),
        None => None,
    }
}

/// Returns the entry of `act`, the act `number`, whose lines begin at the byte `start` of `script`.
pub(crate) fn entry_at<'a>(
    number: u32,
    script: &'a [u8],
    start: usize,
    act: &'a Act,
) -> SealedAct<'a>
    ensures { entry_of result ≡ entry_at number (slice_range script.now start act.now.end) (act_of act.now) }
{
    SealedAct {
        number,
        first: act.first,
        last: act.last,
        added: act.added.as_str(),
        who: borrowed(&act.who),
        deed: borrowed(&act.deed),
        lines: slice(script, start, act.end),
    }
}

/// Returns the leaf hash of `entry`.
fn leaf_of(alloc: Global, entry: &SealedAct<'_>) -> Result<NodeHash, AllocError>
    ensures hash { IfOk result (λ hash. bytes_of hash ≡ leaf_hash (act_bytes (entry_of entry.now))) }
    ensures room { IfOk result (λ _. IsEncodable (entry_of entry.now)) }
{
    let bytes = encode_act(alloc, entry)?;
    Ok(leaf_hash(&bytes))
}

/// Returns the leaf hashes of `acts`, computed by one thread. The first of them has the number `first`, and its lines
/// begin at the byte `from` of `script`.
fn leaves_in_order(
    alloc: Global,
    script: &[u8],
    first: u32,
    from: usize,
    acts: &[Act],
) -> Result<Vec<NodeHash>, AllocError>
    requires numbers { first + length acts.now < 2 ^ 32 }
    ensures hashes { IfOk result (λ hashes. hashes_of hashes.items ≡ leaves_of (entries_from script.now first from (map act_of acts.now))) }
    ensures encodable { IfOk result (λ _. AllByRecursion IsEncodable (entries_from script.now first from (map act_of acts.now))) }
{
    let mut hashes = Vec::new(alloc);
    let mut number = first;
    let mut start = from;
    let mut rest = acts;
    while let Some((act, more)) = rest.split_first() {
        hashes.push(leaf_of(alloc, &entry_at(number, script, start, act))?)?;
        number += 1;
        start = act.end;
        rest = more;
    }
    Ok(hashes)
}

/// Returns where the lines after those of `acts` begin, if those of the first begin at `from`.
fn start_after(from: usize, acts: &[Act]) -> usize
    ensures { result ≡ start_after from (map act_of acts.now) }
{
    match acts.split_last() {
        Some((last, _)) => last.end,
        None => from,
    }
}

/// Returns the leaf hashes of `acts` as [`leaves_in_order`] does, computed by up to `most` threads.
fn leaves_in_halves<T: Threads + Sync>(
    threads: &T,
    alloc: Global,
    most: usize,
    script: &[u8],
    first: u32,
    from: usize,
    acts: &[Act],
) -> Result<Vec<NodeHash>, AllocError>
    requires numbers { first + length acts.now < 2 ^ 32 }
    ensures hashes { IfOk result (λ hashes. hashes_of hashes.items ≡ leaves_of (entries_from script.now first from (map act_of acts.now))) }
    ensures encodable { IfOk result (λ _. AllByRecursion IsEncodable (entries_from script.now first from (map act_of acts.now))) }
{
    if most < 2 || acts.len() <= GRAIN {
        return leaves_in_order(alloc, script, first, from, acts);
    }
    let half = most / 2;
    let middle = acts.len() / 2;
    let (front, back) = acts.split_at(middle);
    let next = first + middle as u32;
    let between = start_after(from, front);
    let (one, other) = join(
        threads,
        || -> Result<Vec<NodeHash>, AllocError>
            requires { IsSync T.row × (first + length front.now < 2 ^ 32) }
            ensures hashes { IfOk result (λ hashes. hashes_of hashes.items ≡ leaves_of (entries_from script.entry.now first from (map act_of front.entry.now))) }
            ensures encodable { IfOk result (λ _. AllByRecursion IsEncodable (entries_from script.entry.now first from (map act_of front.entry.now))) }
        { leaves_in_halves(threads, alloc, half, script, first, from, front) },
        || -> Result<Vec<NodeHash>, AllocError>
            requires { IsSync T.row × (next + length back.now < 2 ^ 32) }
            ensures hashes { IfOk result (λ hashes. hashes_of hashes.items ≡ leaves_of (entries_from script.entry.now next between (map act_of back.entry.now))) }
            ensures encodable { IfOk result (λ _. AllByRecursion IsEncodable (entries_from script.entry.now next between (map act_of back.entry.now))) }
        { leaves_in_halves(threads, alloc, half, script, next, between, back) },
    );
    let mut hashes = one?;
    let mut others = other?;
    hashes.append(&mut others)?;
    Ok(hashes)
}

/// Returns the leaf hashes of `acts`, the acts of `script`. More than 1,024 acts are given to up to 8 threads.
///
/// # Errors
///
/// `AllocError` if there is no memory for them, or if there are more than 4,294,967,294 acts.
pub(crate) fn leaf_hashes<T: Threads + Sync>(
    threads: &T,
    alloc: Global,
    script: &[u8],
    acts: &[Act],
) -> Result<Vec<NodeHash>, AllocError>
    ensures hashes { IfOk result (λ hashes. hashes_of hashes.items ≡ leaves_of (log_of script.now (map act_of acts.now))) }
    ensures encodable { IfOk result (λ _. AllByRecursion IsEncodable (log_of script.now (map act_of acts.now))) }
{
    if acts.len() >= u32::MAX as usize {
        return Err(AllocError);
    }
    leaves_in_halves(threads, alloc, MOST_THREADS, script, 1, 0, acts)
}
