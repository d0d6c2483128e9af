use rp_io::{
    Failed, IntakeFault, MemorySink, MemorySource, QuietSink, QuietSource, Sink, Source, read_whole,
};
use std::process::Abort;

mod buffered;
mod standard;
mod told;

// One read through the trait: what it answers, and the bytes that it gave.
fn expect_read<S: Source>(rt: &impl Abort, source: &mut S, want: Result<&[u8], Failed>) {
    let mut buf = [0u8; 16];
    match (source.read(&mut buf), want) {
        (Ok(count), Ok(bytes)) => assert_eq!(rt; &buf[..count], bytes),
        (got, want) => assert_eq!(rt; got.is_err(), want.is_err()),
    }
}

// One put through the trait.
fn expect_put<S: Sink>(rt: &impl Abort, sink: &mut S, piece: &[u8], want: Result<(), Failed>) {
    assert_eq!(rt; sink.put(piece), want);
}

#[test]
fn memory_source_gives_steps_and_fails_where_listed(rt: HostRuntime) {
    let mut source = MemorySource::new(b"abcdefghijklmnopqrstuvwxy", 10, &[2, 7]);
    for want in [
        Ok(b"abcdefghij".as_slice()),
        Err(Failed),
        Ok(b"klmnopqrst".as_slice()),
        Ok(b"uvwxy".as_slice()),
        Ok(b"".as_slice()),
        Ok(b"".as_slice()),
        Err(Failed),
        Ok(b"".as_slice()),
    ] {
        expect_read(&rt, &mut source, want);
    }
}

#[test]
fn quiet_source_gives_what_the_buffer_holds(rt: HostRuntime) {
    let mut source = QuietSource::new(b"abcdefghijklmnopqr");
    expect_read(&rt, &mut source, Ok(b"abcdefghijklmnop"));
    expect_read(&rt, &mut source, Ok(b"qr"));
    expect_read(&rt, &mut source, Ok(b""));
}

#[test]
fn memory_sink_cuts_listed_puts_and_what_does_not_fit(rt: HostRuntime) {
    let failing = [(3, 3), (3, 9), (6, 9)];
    let mut sink = MemorySink::new(rt.alloc(), 14, &failing).expect(&rt, "no memory");
    for (piece, want, bytes) in [
        (b"one\n".as_slice(), Ok(()), b"one\n".as_slice()),
        (b"two\n", Ok(()), b"one\ntwo\n"),
        (b"= yes\n", Err(Failed), b"one\ntwo\n= y"),
        (b"", Ok(()), b"one\ntwo\n= y"),
        (b"ab", Ok(()), b"one\ntwo\n= yab"),
        (b"c", Err(Failed), b"one\ntwo\n= yabc"),
        (b"", Ok(()), b"one\ntwo\n= yabc"),
        (b"d", Err(Failed), b"one\ntwo\n= yabc"),
    ] {
        expect_put(&rt, &mut sink, piece, want);
        assert_eq!(rt; sink.bytes(), bytes);
    }
}

#[test]
fn quiet_sink_keeps_what_fits_and_goes_on(rt: HostRuntime) {
    let mut sink = QuietSink::new(rt.alloc(), 5).expect(&rt, "no memory");
    for (piece, bytes) in [
        (b"abc".as_slice(), b"abc".as_slice()),
        (b"def", b"abcde"),
        (b"gh", b"abcde"),
    ] {
        expect_put(&rt, &mut sink, piece, Ok(()));
        assert_eq!(rt; sink.bytes(), bytes);
    }
}

#[test]
fn a_source_is_read_whole_up_to_its_limit(rt: HostRuntime) {
    let mut source = MemorySource::new(b"abcdefghij", 4, &[]);
    let whole = read_whole(rt.alloc(), &mut source, 10).expect(&rt, "not read");
    assert_eq!(rt; whole.as_slice(), b"abcdefghij".as_slice());
    let mut failing = MemorySource::new(b"abcdefghij", 4, &[3]);
    let failed = read_whole(rt.alloc(), &mut failing, 10).err();
    assert_eq!(rt; failed, Some(IntakeFault::Failed));
}
