//! The worked rows of the report, and the statuses of the tool when it does not finish.
ghost use Rattle.std.specs.Prelude.{◌≡◌, ◌≢◌, ◌≤◌, ◌<◌, ◌⊎◌, false, [], map, length, IsTrue, None, string_bytes};
ghost use Rattle.rp_io.specs.Faults.{last_count};
ghost use Rattle.rp_reports.specs.Output.{check_report, most_report_bytes, task_of};
ghost use Rattle.rp_tool.specs.Check.{IsWrittenReport};
ghost use Rattle.rp_tool.specs.Status.{HasWritten, most_input_bytes, reads_input};

use rp_io::{MemorySink, MemorySource, QuietSink, QuietSource};
use rp_tool::status::{DONE, OUT_OF_MEMORY, PUT_FAILED, READ_FAILED, REFUSED, TOO_LONG, UNLISTED};
use rp_tool::tool;
use std::alloc::Global;
use std::process::Abort;
use std::thread::Threads;

/// Returns the words of a command line.
fn words_of(rt: &impl Abort, alloc: Global, texts: &[&str]) -> Vec<String> {
    let mut words = Vec::new(alloc);
    for text in texts {
        words
            .push(String::from_str(alloc, text).expect(rt, "no memory"))
            .expect(rt, "no memory");
    }
    words
}

/// Returns the status of the tool over a source and a sink that never fail.
///
/// * The status is never that of a failed read or put.
/// * With status 0 or 1 the sink has the whole output after what it had, if no more came than it has room for.
/// * For known words and an input within its limit, only want of memory gives another status than 0 or 1.
/// * `check` accepts the report written for a script, unless memory runs out.
fn quiet_status<R: Threads + Sync>(
    rt: &R,
    alloc: Global,
    words: &[String],
    source: &mut QuietSource<'_>,
    sink: &mut QuietSink,
) -> u8
    ensures status { result ≤ TOO_LONG }
    ensures read { result ≢ READ_FAILED }
    ensures put { result ≢ PUT_FAILED }
    ensures whole { result ≤ REFUSED → sink.new.is_passed ≡ false
        → HasWritten (map string_bytes words.now) source.old sink.old.bytes sink.new.bytes result }
    ensures completes { task_of (map string_bytes words.now) ≢ None → length source.old ≤ most_input_bytes (map string_bytes words.now)
        → (result ≤ REFUSED) ⊎ (result ≡ OUT_OF_MEMORY) }
    ensures accepts { task_of (map string_bytes words.now) ≡ Some check_report → length source.old ≤ most_report_bytes → IsWrittenReport source.old
        → (result ≡ DONE) ⊎ (result ≡ OUT_OF_MEMORY) }
{
    tool(rt, alloc, words, source, sink)
}

/// Returns the status of the tool over a source and a sink in memory with listed faults. With status 0 or 1 the output
/// is whole, and the source was read to its end, or not at all if the words need no input.
fn memory_status<R: Threads + Sync>(
    rt: &R,
    alloc: Global,
    words: &[String],
    source: &mut MemorySource<'_>,
    sink: &mut MemorySink<'_>,
) -> u8
    ensures whole { result ≤ REFUSED
        → HasWritten (map string_bytes words.now) source.old.left sink.old.bytes sink.new.bytes result }
    ensures at_end { result ≤ REFUSED → IsTrue (reads_input (map string_bytes words.now)) → source.new.left ≡ [] }
    ensures unread { reads_input (map string_bytes words.now) ≡ false → source.new ≡ source.old }
    ensures completes { task_of (map string_bytes words.now) ≢ None → length source.old.left ≤ most_input_bytes (map string_bytes words.now)
        → source.new.faults ≡ source.old.faults → source.old.faults < last_count
        → sink.new.faults ≡ sink.old.faults → sink.old.faults < last_count
        → (result ≤ REFUSED) ⊎ (result ≡ OUT_OF_MEMORY) }
{
    tool(rt, alloc, words, source, sink)
}

/// Returns the status and the output of the tool on an input of one piece, with room for 10,000 bytes of output.
fn run_on<R: Abort + Threads + Sync>(
    rt: &R,
    alloc: Global,
    texts: &[&str],
    input: &[u8],
) -> (u8, Vec<u8>) {
    let words = words_of(rt, alloc, texts);
    let mut source = QuietSource::new(input);
    let mut sink = QuietSink::new(alloc, 10_000).expect(rt, "no memory");
    let status = quiet_status(rt, alloc, &words, &mut source, &mut sink);
    (
        status,
        Vec::from_slice(alloc, sink.bytes()).expect(rt, "no memory"),
    )
}

#[test]
fn reports_the_worked_rows(rt: HostRuntime) {
    let rows = [
        (
            "member half 0 -1 0 5 3 5 9 1\nmember half 0 1 0 -5 3 5 9 1\n",
            "> 1 member half 0 -1 0 5 3 5 9 1\n= no\n> 2 member half 0 1 0 -5 3 5 9 1\n= yes\n",
        ),
        (
            "empty box 0 0 0 10 10 10\n",
            "> 1 empty box 0 0 0 10 10 10\n  in (0 0 0 1) (0 0 10 1) (0 10 0 1) (10 0 0 1)\n  box 0 0 0 10 10 10\n  in (0 0 0 1) (0 0 10 1) (0 10 0 1) (10 0 0 1)\n= no\n",
        ),
        (
            "empty box 0 0 0 0 10 10\n",
            "> 1 empty box 0 0 0 0 10 10\n  out 1*(1 0 0 0) 1*(-1 0 0 0)\n= yes\n",
        ),
        // Blank lines are numbered and told nothing.
        (
            "# a note\n\nmember half 1 0 0 0 0 5 5 1\n",
            "> 3 member half 1 0 0 0 0 5 5 1\n= yes\n",
        ),
        (
            "rp 2\nmember box 0.000 0.000 0.000 0.010 0.010 0.010 0.005 0.003 0.005 9\n\n",
            "> 0 rp 2\n> 1 member box 0.000 0.000 0.000 0.010 0.010 0.010 0.005 0.003 0.005 9\n= yes\n",
        ),
    ];
    for (script, report) in rows {
        let (status, told) = run_on(&rt, rt.alloc(), &["run"], script.as_bytes());
        assert_eq!(rt; status, DONE, "on {script:?}");
        assert_eq!(rt; told.as_slice(), report.as_bytes(), "on {script:?}");
    }
}

#[test]
fn line_ends_make_no_difference(rt: HostRuntime) {
    let scripts = [
        "member all 0 0 0 1\nmember half 1 0 0 0 0 5 5 1\n",
        "member all 0 0 0 1\r\nmember half 1 0 0 0 0 5 5 1\r\n",
        "member all 0 0 0 1\nmember half 1 0 0 0 0 5 5 1",
    ];
    let report = b"> 1 member all 0 0 0 1\n= yes\n> 2 member half 1 0 0 0 0 5 5 1\n= yes\n";
    for script in scripts {
        let (status, told) = run_on(&rt, rt.alloc(), &["run"], script.as_bytes());
        assert_eq!(rt; status, DONE, "on {script:?}");
        assert_eq!(rt; told.as_slice(), report.as_slice(), "on {script:?}");
    }
}

#[test]
fn other_words_are_not_listed(rt: HostRuntime) {
    let rows: [&[&str]; 3] = [&["walk"], &["run", "brief", "now"], &[]];
    for texts in rows {
        let (status, told) = run_on(&rt, rt.alloc(), texts, b"member all 0 0 0 1\n");
        assert_eq!(rt; status, UNLISTED, "on {texts:?}");
        assert!(rt; told.is_empty(), "on {texts:?}");
    }
}

#[test]
fn brief_reports_tell_no_proof_line(rt: HostRuntime) {
    let script = b"empty box 0 0 0 10 10 10\n# a note\nempty name a\n";
    let (status, told) = run_on(&rt, rt.alloc(), &["run", "brief"], script);
    assert_eq!(rt; status, REFUSED);
    let report = b"> 1 empty box 0 0 0 10 10 10\n= no\n> 3 empty name a\n= refused unknown a\n";
    assert_eq!(rt; told.as_slice(), report.as_slice());
}

#[test]
fn checks_reports(rt: HostRuntime) {
    let rows = [
        // Other multiples than the run finds, that show the same.
        (
            "> 1 empty box 0 0 0 0 10 10\n  out 7*(-1 0 0 0) 7*(1 0 0 0)\n= yes\n",
            DONE,
            "accepted\n",
        ),
        (
            "> 1 empty box 0 0 0 0 10 10\n  out 1*(1 0 0 0) 2*(-1 0 0 0)\n= yes\n",
            REFUSED,
            "wrong 2\n",
        ),
    ];
    for (report, want, found) in rows {
        let (status, told) = run_on(&rt, rt.alloc(), &["check"], report.as_bytes());
        assert_eq!(rt; status, want, "on {report:?}");
        assert_eq!(rt; told.as_slice(), found.as_bytes(), "on {report:?}");
    }
}

#[test]
fn counts_in_the_report_of_a_made_script(rt: HostRuntime) {
    // Nothing is read, so what the source has is no matter.
    let (status, told) = run_on(&rt, rt.alloc(), &["trial", "1", "0"], b"walk\n");
    assert_eq!(rt; status, DONE);
    assert_eq!(rt;
        told.as_slice(),
        b"lines 5\nrefused 0\nlive 2\nproofs 16\n".as_slice()
    );
}

#[test]
fn stops_where_a_read_or_a_put_fails(rt: HostRuntime) {
    let alloc = rt.alloc();
    let words = words_of(&rt, alloc, &["run"]);
    // The number of the read that fails; that of the put that fails, and the bytes that it appends. No call has number 0.
    let rows = [
        ([1], [(0, 0)], READ_FAILED, ""),
        ([2], [(0, 0)], READ_FAILED, ""),
        ([0], [(1, 0)], PUT_FAILED, ""),
        (
            [0],
            [(2, 5)],
            PUT_FAILED,
            "> 1 empty box 0 0 0 0 10 10\n  out",
        ),
        (
            [0],
            [(3, 3)],
            PUT_FAILED,
            "> 1 empty box 0 0 0 0 10 10\n  out 1*(1 0 0 0) 1*(-1 0 0 0)\n= y",
        ),
        (
            [0],
            [(0, 0)],
            DONE,
            "> 1 empty box 0 0 0 0 10 10\n  out 1*(1 0 0 0) 1*(-1 0 0 0)\n= yes\n",
        ),
    ];
    for (reads, puts, want, written) in rows {
        let mut source = MemorySource::new(b"empty box 0 0 0 0 10 10\n", 10, &reads);
        let mut sink = MemorySink::new(alloc, 1000, &puts).expect(&rt, "no memory");
        let status = memory_status(&rt, alloc, &words, &mut source, &mut sink);
        assert_eq!(rt; status, want, "on {reads:?} {puts:?}");
        assert_eq!(rt; sink.bytes(), written.as_bytes(), "on {reads:?} {puts:?}");
    }
}

/// Returns the status of the tool over a sink whose put of the given number fails, counted from 1.
fn status_where_a_put_fails<R: Abort + Threads + Sync>(
    rt: &R,
    alloc: Global,
    texts: &[&str],
    input: &[u8],
    number: u32,
) -> u8 {
    let words = words_of(rt, alloc, texts);
    let failing = [(number, 0)];
    let mut source = MemorySource::new(input, 1000, &[]);
    let mut sink = MemorySink::new(alloc, 10_000, &failing).expect(rt, "no memory");
    memory_status(rt, alloc, &words, &mut source, &mut sink)
}

#[test]
fn there_is_one_put_for_each_line(rt: HostRuntime) {
    let alloc = rt.alloc();
    let script = b"rp 2\nmember all 0.000 0.000 0.000 1\n\nempty none\nno command\n";
    let report = b"> 1 member all 0 0 0 1\n= yes\n";
    // With as many lines as the output has, of which each has its line feed.
    let rows: [(&[&str], &[u8], u8); 10] = [
        (&["run"], script, 7),
        (&["run", "brief"], script, 7),
        (&["run"], b"# a note\n\n", 0),
        (&["check"], report, 1),
        (&["script"], script, 3),
        (&["script"], b"\n", 0),
        (&["upgrade"], script, 5),
        (&["upgrade"], b"", 1),
        (&["make", "1", "0"], b"", 5),
        (&["trial", "1", "0"], b"", 4),
    ];
    for (texts, input, lines) in rows {
        let lines = u32::from(lines);
        let whole = status_where_a_put_fails(&rt, alloc, texts, input, lines + 1);
        assert!(rt; whole <= REFUSED, "one put more, on {texts:?}");
        if lines > 0 {
            let cut = status_where_a_put_fails(&rt, alloc, texts, input, lines);
            assert_eq!(rt; cut, PUT_FAILED, "the last put, on {texts:?}");
        }
    }
}

#[test]
fn puts_the_mark_by_itself(rt: HostRuntime) {
    let rows = [
        ("run", "> 0 rp 2\n"),
        ("script", "rp 2\n"),
        ("upgrade", "rp 2\n"),
    ];
    for (word, written) in rows {
        let words = words_of(&rt, rt.alloc(), &[word]);
        let mut source = MemorySource::new(b"rp 2\nempty none\n", 10, &[]);
        let mut sink = MemorySink::new(rt.alloc(), 1000, &[(2, 0)]).expect(&rt, "no memory");
        let status = memory_status(&rt, rt.alloc(), &words, &mut source, &mut sink);
        assert_eq!(rt; status, PUT_FAILED, "on {word}");
        assert_eq!(rt; sink.bytes(), written.as_bytes(), "on {word}");
    }
}

#[test]
fn takes_sixteen_million_bytes(rt: HostRuntime) {
    let input = vec![in rt.alloc(); b'\n'; 16_777_216].expect(&rt, "no memory");
    let (status, told) = run_on(&rt, rt.alloc(), &["run"], &input);
    assert_eq!(rt; status, DONE);
    assert!(rt; told.is_empty());
}
