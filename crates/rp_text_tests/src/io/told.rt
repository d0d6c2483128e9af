//! What the clauses of the traits say of each form, in plain values. Where a form told no bytes, or
//! another count of faults, these functions would not be proved.
ghost use Rattle.std.specs.Prelude.{◌≡◌, ℕ, ◌≤◌, ◌<◌, ◌++◌, [], false, length, take, drop, IfOk, IsOk, OnErr, OnOk};
ghost use Rattle.rp_io.specs.Bytes.{Appends, AppendsPrefix, IsAtEnd, Takes};
ghost use Rattle.rp_io.specs.Faults.{HasRisen, last_count};
ghost use Rattle.rp_io.specs.Standard.{put_faults, read_faults};

use rp_io::{
    Failed, MemorySink, MemorySource, QuietSink, QuietSource, Sink, Source, StdSink, StdSource,
};
use std::io::{Read, Write};
use std::test::Fail;

// One read of some source: no more is known of it than the trait promises.
fn read_once<S: Source>(source: &mut S, buf: &mut [u8]) -> Result<usize, Failed>
    ensures counts { S.faults source.old ≤ S.faults source.new }
    ensures limit { S.faults source.new ≤ last_count }
    ensures failed { OnErr result (HasRisen (S.faults source.old) (S.faults source.new)) }
    ensures within { IfOk result (λ n. n ≤ length buf.new) }
    ensures taken { IfOk result (λ n. Takes (S.left source.old) (S.left source.new) n buf.new) }
    ensures end { IfOk result (λ n. n ≡ 0 → 0 < length buf.new → IsAtEnd (S.left source.old)) }
{
    source.read(buf)
}

// One put to some sink: no more is known of it than the trait promises.
fn put_once<K: Sink>(sink: &mut K, piece: &[u8]) -> Result<(), Failed>
    ensures counts { K.faults sink.old ≤ K.faults sink.new }
    ensures limit { K.faults sink.new ≤ last_count }
    ensures failed { OnErr result (HasRisen (K.faults sink.old) (K.faults sink.new)) }
    ensures ok { OnOk result (Appends (K.said sink.old) (K.said sink.new) piece.now) }
    ensures err { OnErr result (AppendsPrefix (K.said sink.old) (K.said sink.new) piece.now) }
{
    sink.put(piece)
}

fn read_quiet(source: &mut QuietSource<'_>, buf: &mut [u8]) -> Result<usize, Failed>
    ensures succeeds { IsOk result }
    ensures within { IfOk result (λ n. n ≤ length source.old) }
    ensures given { IfOk result (λ n. take n buf.new ≡ take n source.old) }
    ensures rest { IfOk result (λ n. source.new ≡ drop n source.old) }
    ensures end { IfOk result (λ n. n ≡ 0 → 0 < length buf.new → source.old ≡ []) }
    ensures no_fault { ⟦<QuietSource<'static> as Source>⟧.faults source.old ≡ 0 }
    ensures none_since { ⟦<QuietSource<'static> as Source>⟧.faults source.new ≡ 0 }
{
    read_once(source, buf)
}

fn read_memory(source: &mut MemorySource<'_>, buf: &mut [u8]) -> Result<usize, Failed>
    ensures within { IfOk result (λ n. n ≤ length source.old.left) }
    ensures given { IfOk result (λ n. take n buf.new ≡ take n source.old.left) }
    ensures rest { IfOk result (λ n. source.new.left ≡ drop n source.old.left) }
    ensures end { IfOk result (λ n. n ≡ 0 → 0 < length buf.new → source.old.left ≡ []) }
    ensures failed { OnErr result (HasRisen source.old.faults source.new.faults) }
{
    read_once(source, buf)
}

fn put_quiet(sink: &mut QuietSink, piece: &[u8]) -> Result<(), Failed>
    ensures succeeds { IsOk result }
    ensures was_told { sink.new.is_passed ≡ false → sink.old.is_passed ≡ false }
    ensures appended { sink.new.is_passed ≡ false → sink.new.bytes ≡ sink.old.bytes ++ piece.now }
    ensures no_fault { ⟦<QuietSink as Sink>⟧.faults sink.old ≡ 0 }
    ensures none_since { ⟦<QuietSink as Sink>⟧.faults sink.new ≡ 0 }
{
    put_once(sink, piece)
}

fn put_memory(sink: &mut MemorySink<'_>, piece: &[u8]) -> Result<(), Failed>
    ensures appended { OnOk result (sink.new.bytes ≡ sink.old.bytes ++ piece.now) }
    ensures cut { OnErr result ((n : ℕ) × (n ≤ length piece.now)
        × (sink.new.bytes ≡ sink.old.bytes ++ take n piece.now)) }
    ensures failed { OnErr result (HasRisen sink.old.faults sink.new.faults) }
{
    put_once(sink, piece)
}

fn read_std<R: Read>(source: &mut StdSource<R>, buf: &mut [u8]) -> Result<usize, Failed>
    ensures counts { read_faults source.old ≤ read_faults source.new }
    ensures failed { OnErr result (HasRisen (read_faults source.old) (read_faults source.new)) }
{
    read_once(source, buf)
}

fn put_std<W: Write>(sink: &mut StdSink<W>, piece: &[u8]) -> Result<(), Failed>
    ensures counts { put_faults sink.old ≤ put_faults sink.new }
    ensures failed { OnErr result (HasRisen (put_faults sink.old) (put_faults sink.new)) }
{
    put_once(sink, piece)
}

#[test]
fn each_form_is_read_or_put(rt: HostRuntime) -> Result<(), Fail> {
    let mut buf = [0u8; 2];
    assert_eq!(rt; read_quiet(&mut QuietSource::new(b"abc"), &mut buf), Ok(2));
    assert_eq!(rt;
        read_memory(&mut MemorySource::new(b"abc", 1, &[]), &mut buf),
        Ok(1)
    );
    assert_eq!(rt;
        read_std(&mut StdSource::new(b"abc".as_slice()), &mut buf),
        Ok(2)
    );
    assert_eq!(rt;
        put_quiet(&mut QuietSink::new(rt.alloc(), 3)?, b"abc"),
        Ok(())
    );
    assert_eq!(rt;
        put_memory(&mut MemorySink::new(rt.alloc(), 3, &[])?, b"abcd"),
        Err(Failed)
    );
    assert_eq!(rt;
        put_std(&mut StdSink::new(Vec::new(rt.alloc())), b"abc"),
        Ok(())
    );
    Ok(())
}
