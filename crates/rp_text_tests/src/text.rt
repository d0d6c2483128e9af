use rp_answer::{Answer, Refusal, Verdict, Verdicts};
use rp_cert::{Proof, Proofs};
use rp_command::Why;
use rp_io::MemorySink;
use rp_lists::Name;
use rp_scripts::put_answer;
use rp_space::{Half, Halves};
use rp_text::{read_echo, read_proof, read_slice, write_answer, write_verdict};
use std::alloc::Global;
use std::process::Abort;

/// Writes an answer in full, and puts it line by line, and compares both texts.
fn expect_answer(rt: &impl Abort, alloc: Global, answer: &Answer, want: &[u8]) {
    let mut out = Vec::new(alloc);
    write_answer(answer, false, &mut out).expect(rt, "no memory");
    assert_eq!(rt; out.as_slice(), want);
    let mut sink = MemorySink::new(alloc, want.len(), &[]).expect(rt, "no memory");
    put_answer(answer, false, &mut out, &mut sink).expect(rt, "no put");
    assert_eq!(rt; sink.bytes(), want);
}

/// Writes a verdict, and compares its text.
fn expect_text(rt: &impl Abort, alloc: Global, verdict: &Verdict, want: &[u8]) {
    let mut out = Vec::new(alloc);
    write_verdict(verdict, &mut out).expect(rt, "no memory");
    assert_eq!(rt; out.as_slice(), want);
}

#[test]
fn each_verdict_has_its_line(rt: HostRuntime) {
    let name = Name::new(b"west").expect(&rt, "no name");
    for (verdict, want) in [
        (Verdict::Yes, b"= yes".as_slice()),
        (Verdict::No, b"= no"),
        (Verdict::Ok, b"= ok"),
        (Verdict::DC, b"= DC"),
        (Verdict::EC, b"= EC"),
        (Verdict::PO, b"= PO"),
        (Verdict::EQ, b"= EQ"),
        (Verdict::TPP, b"= TPP"),
        (Verdict::NTPP, b"= NTPP"),
        (Verdict::TPPi, b"= TPPi"),
        (Verdict::NTPPi, b"= NTPPi"),
        (Verdict::Pieces(0), b"= pieces 0"),
        (Verdict::Parts(1024), b"= parts 1024"),
        (Verdict::Parcel(name), b"= parcel west"),
        (Verdict::Nobody, b"= nobody"),
        (Verdict::Neighbours(2), b"= neighbours 2"),
        (Verdict::Clear(800), b"= clear 800"),
        (Verdict::Parcels(0), b"= parcels 0"),
        (Verdict::Lots(3), b"= lots 3"),
        (Verdict::Sections(1), b"= sections 1"),
        (Verdict::Access(2), b"= access 2"),
        (Verdict::NoAccess, b"= noaccess"),
        (Verdict::Level(3, name), b"= level 3 west"),
    ] {
        expect_text(&rt, rt.alloc(), &verdict, want);
    }
}

#[test]
fn each_refusal_has_its_words(rt: HostRuntime) {
    let name = Name::new(b"west").expect(&rt, "no name");
    for (refusal, want) in [
        (Refusal::Bad(Why::Syntax), b"= refused syntax".as_slice()),
        (Refusal::Bad(Why::Range), b"= refused range"),
        (Refusal::Bad(Why::Zero), b"= refused zero"),
        (Refusal::Bad(Why::Nodes), b"= refused nodes"),
        (Refusal::Bad(Why::Long), b"= refused long"),
        (Refusal::Unknown(name), b"= refused unknown west"),
        (Refusal::Known(name), b"= refused known west"),
        (Refusal::Repeated(name), b"= refused repeated west"),
        (Refusal::Layers(name), b"= refused layers west"),
        (Refusal::Same, b"= refused same"),
        (Refusal::Few, b"= refused few"),
        (Refusal::Limit, b"= refused limit"),
        (Refusal::EmptyRegion(1), b"= refused emptyregion 1"),
        (Refusal::Empty, b"= refused empty"),
        (Refusal::Overlaps(name), b"= refused overlaps west"),
        (Refusal::EmptySide(2), b"= refused emptyside 2"),
        (Refusal::EmptyChild(1024), b"= refused emptychild 1024"),
        (Refusal::Outside(3), b"= refused outside 3"),
        (
            Refusal::ChildrenOverlap(1, 12),
            b"= refused childrenoverlap 1 12",
        ),
        (Refusal::Gap, b"= refused gap"),
    ] {
        expect_text(&rt, rt.alloc(), &Verdict::Refused(refusal), want);
    }
}

#[test]
fn parts_stand_below_their_number(rt: HostRuntime) {
    let alloc = rt.alloc();
    let near = Half::new(-1, 0, 0, 10).expect(&rt, "no half-space");
    let right = Half::new(0, 1, 0, 0).expect(&rt, "no half-space");
    let part = Halves::copy_of(alloc, &[near, right]).expect(&rt, "no memory");
    let mut verdicts = Verdicts::new(alloc);
    verdicts.push(Verdict::Parts(1)).expect(&rt, "no memory");
    verdicts.push(Verdict::Part(part)).expect(&rt, "no memory");
    let answer = Answer::with_verdicts(alloc, 7, b"show q", Proofs::new(alloc), verdicts);
    let want = b"> 7 show q\n= parts 1\n= part (-1 0 0 10) (0 1 0 0)\n";
    expect_answer(&rt, alloc, &answer.expect(&rt, "no memory"), want);
}

#[test]
fn past_a_limit_nothing_but_the_refusal_is_told(rt: HostRuntime) {
    let answer = Answer::past_limit(rt.alloc(), 7, b"show q").expect(&rt, "no memory");
    let want = b"> 7 show q\n= refused limit\n";
    expect_answer(&rt, rt.alloc(), &answer, want);
    expect_answer(&rt, rt.alloc(), &Answer::blank(rt.alloc(), 3), b"");
}

#[test]
fn without_echo_the_number_stands_alone(rt: HostRuntime) {
    let verdict = Verdict::Refused(Refusal::Bad(Why::Long));
    let proofs = Proofs::new(rt.alloc());
    let answer = Answer::with_verdict(rt.alloc(), 4294967295, b"", proofs, verdict);
    let want = b"> 4294967295\n= refused long\n";
    expect_answer(&rt, rt.alloc(), &answer.expect(&rt, "no memory"), want);
}

/// Writes an answer with the proof line, and compares its text.
fn expect_proof(rt: &impl Abort, alloc: Global, proof: Proof, want: &[u8]) {
    let mut proofs = Proofs::new(alloc);
    proofs.push(proof).expect(rt, "no memory");
    let answer = Answer::with_verdict(alloc, 7, b"q", proofs, Verdict::No).expect(rt, "no memory");
    expect_answer(rt, alloc, &answer, want);
}

/// Reads a proof line, writes it in an answer, and compares the text.
fn expect_read(rt: &impl Abort, alloc: Global, line: &[u8]) {
    let proof = read_proof(line).expect(rt, "no proof line");
    let mut want = Vec::from_slice(alloc, b"> 7 q\n").expect(rt, "no memory");
    want.extend_from_slice(line).expect(rt, "no memory");
    want.extend_from_slice(b"\n= no\n").expect(rt, "no memory");
    expect_proof(rt, alloc, proof, want.as_slice());
}

#[test]
fn proof_lines_are_read_back(rt: HostRuntime) {
    for line in [
        b"  in (0 0 0 1) (0 0 10 1) (-1 2 -3 4) (5 0 0 1)".as_slice(),
        b"  out 1*(1 0 0 0) 1*(-1 0 0 0)",
        b"  out 37778931862957161709567*(0 0 0 -1)",
        b"  at (-2535301200456458802993406410751 1 0 37778931862957161709567)",
        b"  apart 2*(-1 0 0 10) 3*(1 0 0 -11) 4*(0 1 0 0) 5*(0 0 1 0)",
        b"  drop (16777213 0 0 -844424930131968) 1*(1 0 0 0)",
        b"  box -16777216 0 0 16777216 10 10",
    ] {
        expect_read(&rt, rt.alloc(), line);
    }
}

#[test]
fn echoes_give_number_and_place(rt: HostRuntime) {
    assert_eq!(rt; read_echo(b"> 7 a b"), Some((7, Some(4))));
}

/// Reads a line of a slice, writes it as a verdict, and compares the text.
fn expect_slice(rt: &impl Abort, alloc: Global, line: &[u8]) {
    let slice = read_slice(line).expect(rt, "no slice");
    let verdict = Verdict::Slice(Box::new(alloc, slice).expect(rt, "no memory"));
    expect_text(rt, alloc, &verdict, line);
}

#[test]
fn lines_of_slices_are_read_back(rt: HostRuntime) {
    for line in [
        b"= ring (1 0 0) (0 0 5 1) (0 1 0) (10 0 5 1) (-1 0 10) (10 10 5 1) (0 -1 10) (0 10 5 1)".as_slice(),
        b"= ring (16777216 0 1125899906842624) (0 0 1 1) (0 1 0) (1 0 1 1) (1 1 1) (1 1 1 1)",
        b"= flat 1*(1 0 0 0) 37778931862957161709567*(-1 0 0 0) 2*(0 1 0 0)",
    ] {
        expect_slice(&rt, rt.alloc(), line);
    }
}
