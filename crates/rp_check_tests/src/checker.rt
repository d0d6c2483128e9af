use rp_checker::{Found, check_report};
use std::alloc::Global;
use std::process::Abort;

/// Checks a report.
fn expect(rt: &impl Abort, alloc: Global, report: &[u8], wanted: Found) {
    assert!(rt; report.len() <= 67108864);
    assert_eq!(rt; check_report(alloc, report).expect(rt, "no memory"), wanted);
}

#[test]
fn certificates_need_not_be_the_first(rt: HostRuntime) {
    let table: [&[u8]; 3] = [
        b"> 1 empty box 0 0 0 0 10 10\n  out 37778931862957161709567*(1 0 0 0) 37778931862957161709567*(-1 0 0 0)\n= yes\n",
        b"> 7 empty box 0 0 0 0 10 10\n  out 1*(1 0 0 0) 1*(1 0 0 0) 2*(-1 0 0 0)\n= yes\n",
        b"> 1 empty box 0 0 0 10 10 10\n  in (1 1 1 1)\n  box -1 0 0 10 10 10\n  out 1*(1 0 0 0) 1*(-1 0 0 -1)\n  in (9 9 9 2)\n= no\n",
    ];
    for report in table {
        expect(&rt, rt.alloc(), report, Found::Accepted);
    }
}

#[test]
fn a_changed_line_is_wrong(rt: HostRuntime) {
    let table: [(&[u8], u32); 4] = [
        (
            b"> 1 empty box 0 0 0 0 10 10\n  out 2*(1 0 0 0) 1*(-1 0 0 0)\n= yes\n",
            2,
        ),
        (
            b"> 1 empty box 0 0 0 0 10 10\n  out 1*(1 0 0 0) 1*(-1 0 0 0)\n= no\n",
            3,
        ),
        (b"> 1 empty box 0 0 0 0 10 10\n= yes\n", 2),
        (b"> 2 layer a\n= ok\n> 2 layer b\n= ok\n", 3),
    ];
    for (report, number) in table {
        expect(&rt, rt.alloc(), report, Found::Wrong(number));
    }
}

/// A report of every command that makes, changes or asks for lots.
const LOTS: &[u8] = b"> 1 register a box 0 0 0 4 2 2
  in (0 0 0 1) (0 0 2 1) (0 2 0 1) (4 0 0 1)
  box 0 0 0 4 2 2
= ok
> 2 register b box 4 0 0 6 2 2
  in (4 0 0 1) (4 0 2 1) (4 2 0 1) (6 0 0 1)
  box 4 0 0 6 2 2
= ok
> 3 register c box 5 0 0 8 2 2
  in (5 0 0 1) (5 0 2 1) (5 2 0 1) (8 0 0 1)
  box 5 0 0 8 2 2
  in (5 0 0 1) (5 0 2 1) (5 2 0 1) (6 0 0 1)
= refused overlaps b
> 4 neighbours a
  at (4 0 0 1)
= neighbours 1
= parcel b
> 5 cut a half 1 0 0 -2 e w
  in (2 -16777216 -16777216 1) (2 -16777216 16777216 1) (2 16777216 -16777216 1) (16777216 -16777216 -16777216 1)
  box 2 -16777216 -16777216 16777216 16777216 16777216
  in (4 0 0 1) (4 0 2 1) (4 2 0 1) (2 0 0 1)
  drop (1 0 0 0) 1*(1 0 0 -2) 1*(-1 0 0 0)
  box 2 0 0 4 2 2
  in (4 0 0 1) (4 0 2 1) (4 2 0 1) (2 0 0 1)
  in (0 0 0 1) (0 0 2 1) (0 2 0 1) (2 0 0 1)
  drop (-1 0 0 4) 1*(-1 0 0 2) 1*(1 0 0 -4)
  box 0 0 0 2 2 2
= ok
> 6 subdivide e 2 n box 2 0 0 4 1 2 s box 2 1 0 4 2 2
  in (2 0 0 1) (2 0 2 1) (2 1 0 1) (4 0 0 1)
  box 2 0 0 4 1 2
  in (2 1 0 1) (2 1 2 1) (2 2 0 1) (4 1 0 1)
  box 2 1 0 4 2 2
  in (2 0 0 1) (2 0 2 1) (2 1 0 1) (4 0 0 1)
  out 1*(-1 0 0 4) 1*(1 0 0 -4)
  out 1*(0 1 0 0) 1*(0 -1 0 0)
  out 1*(0 -1 0 1) 1*(0 1 0 -2)
  out 1*(0 0 1 0) 1*(0 0 -1 0)
  out 1*(0 0 -1 2) 1*(0 0 1 -2)
  out 1*(1 0 0 -2) 1*(-1 0 0 2)
  in (2 1 0 1) (2 1 2 1) (2 2 0 1) (4 1 0 1)
  out 1*(-1 0 0 4) 1*(1 0 0 -4)
  out 1*(0 1 0 -1) 1*(0 -1 0 0)
  out 1*(0 -1 0 2) 1*(0 1 0 -2)
  out 1*(0 0 1 0) 1*(0 0 -1 0)
  out 1*(0 0 -1 2) 1*(0 0 1 -2)
  out 1*(1 0 0 -2) 1*(-1 0 0 2)
  in (4 0 0 1) (4 0 2 1) (4 1 0 1) (2 0 0 1)
  out 1*(1 0 0 -2) 1*(-1 0 0 2)
  out 1*(-1 0 0 4) 1*(1 0 0 -4)
  out 1*(0 1 0 0) 1*(0 -1 0 0)
  in (4 2 0 1) (4 2 2 1) (4 1 0 1) (2 2 0 1)
  drop (-1 0 0 4) 1*(-1 0 0 4) 1*(1 0 0 -4)
  drop (0 1 0 0) 1*(0 1 0 0) 1*(0 -1 0 0)
  drop (1 0 0 -2) 1*(1 0 0 -2) 1*(-1 0 0 2)
  drop (0 1 0 0) 1*(0 1 0 -1) 1*(0 -1 0 0)
  box 2 1 0 4 2 2
  out 1*(0 0 1 0) 1*(0 0 -1 0)
  out 1*(0 0 -1 2) 1*(0 0 1 -2)
  in (2 2 0 1) (4 2 0 1) (2 2 2 1) (2 1 0 1)
  out 1*(1 0 0 -2) 1*(-1 0 0 2)
  out 1*(-1 0 0 4) 1*(1 0 0 -4)
  out 1*(0 1 0 -1) 1*(0 -1 0 1)
  out 1*(0 -1 0 2) 1*(0 1 0 -2)
  out 1*(0 0 1 0) 1*(0 0 -1 0)
  out 1*(0 0 -1 2) 1*(0 0 1 -2)
= ok
> 7 consolidate u 2 w n
= ok
> 8 retire b
= ok
> 9 layer rights
= ok
> 10 register b2 box 0 0 0 9 9 9
  in (0 0 0 1) (0 0 9 1) (0 9 0 1) (9 0 0 1)
  box 0 0 0 9 9 9
= ok
> 11 at 1 1 1 1
= parcel b2
> 12 asof 1 1 1 1 1
= nobody
> 13 layer base
= ok
> 14 asof 2 1 1 1 1
= parcel a
> 15 at 3 1 1 2
= parcel u
> 16 history u
= lots 5
= lot a born 1 ended 5
= lot e born 5 ended 6 from a
= lot w born 5 ended 7 from a
= lot n born 6 ended 7 from e
= lot u born 7 live from w n
> 17 audit
= clear 3
> 18 list
= parcels 3
= lot s born 6 live from e
= lot u born 7 live from w n
= lot b2 born 10 live layer rights
";

/// A report of questions about forms.
const FORMS: &[u8] = b"> 1 let a = box 0 0 0 2 2 2
  in (0 0 0 1) (0 0 2 1) (0 2 0 1) (2 0 0 1)
  box 0 0 0 2 2 2
= ok
> 2 let b = or box 0 0 0 1 1 1 box 3 0 0 4 1 1
  in (0 0 0 1) (0 0 1 1) (0 1 0 1) (1 0 0 1)
  box 0 0 0 1 1 1
  in (3 0 0 1) (3 0 1 1) (3 1 0 1) (4 0 0 1)
  box 3 0 0 4 1 1
= ok
> 3 equal name a name b
  in (0 0 0 1) (0 0 1 1) (0 1 0 1) (1 0 0 1)
  out 1*(1 0 0 0) 1*(-1 0 0 0)
  in (2 0 0 1) (2 0 2 1) (2 2 0 1) (1 0 0 1)
  drop (1 0 0 0) 1*(1 0 0 0) 1*(-1 0 0 0)
  drop (1 0 0 0) 1*(1 0 0 -1) 1*(-1 0 0 0)
  box 1 0 0 2 2 2
  out 1*(0 1 0 0) 1*(0 -1 0 0)
  in (0 2 0 1) (0 2 2 1) (0 1 0 1) (1 2 0 1)
  drop (1 0 0 0) 1*(1 0 0 0) 1*(-1 0 0 0)
  drop (-1 0 0 2) 1*(-1 0 0 1) 1*(1 0 0 -2)
  drop (0 1 0 0) 1*(0 1 0 0) 1*(0 -1 0 0)
  drop (0 1 0 0) 1*(0 1 0 -1) 1*(0 -1 0 0)
  box 0 1 0 1 2 2
  out 1*(0 0 1 0) 1*(0 0 -1 0)
  in (0 0 2 1) (0 0 1 1) (0 1 2 1) (1 0 2 1)
  drop (1 0 0 0) 1*(1 0 0 0) 1*(-1 0 0 0)
  drop (-1 0 0 2) 1*(-1 0 0 1) 1*(1 0 0 -2)
  drop (0 1 0 0) 1*(0 1 0 0) 1*(0 -1 0 0)
  drop (0 -1 0 2) 1*(0 -1 0 1) 1*(0 1 0 -2)
  drop (0 0 1 0) 1*(0 0 1 0) 1*(0 0 -1 0)
  drop (0 0 1 0) 1*(0 0 1 -1) 1*(0 0 -1 0)
  box 0 0 1 1 1 2
  in (2 0 0 1) (2 0 2 1) (2 2 0 1) (1 0 0 1)
= no
> 4 contact name a name b
  at (0 0 0 1)
= yes
> 5 rcc name a box 5 0 0 6 1 1
  in (5 0 0 1) (5 0 1 1) (5 1 0 1) (6 0 0 1)
  box 5 0 0 6 1 1
  out 1*(-1 0 0 2) 1*(1 0 0 -5)
  apart 1*(-1 0 0 2) 1*(1 0 0 -5)
= DC
> 6 pieces name b
  apart 1*(-1 0 0 1) 1*(1 0 0 -3)
= pieces 2
= piece 1
= piece 2
> 7 show name b
= parts 2
= part (1 0 0 0) (-1 0 0 1) (0 1 0 0) (0 -1 0 1) (0 0 1 0) (0 0 -1 1)
= part (1 0 0 -3) (-1 0 0 4) (0 1 0 0) (0 -1 0 1) (0 0 1 0) (0 0 -1 1)
";

/// A report of slices, of the second version, and of a chain of lots.
const SLICES_AND_CHAINS: &[u8] = b"> 0 rp 2
> 1 section prism 0.000 0.010 4 0.000 0.000 0.010 0.000 0.010 0.010 0.000 0.010 0.005
  out 1*(0 1 0 0) 1*(0 -1 0 0)
  in (0 0 0 1) (0 0 10 1) (0 10 0 1) (10 0 0 1)
  box 0 0 0 10 10 10
= sections 1
= ring (1 0 0) (0 0 5 1) (0 1 0) (10 0 5 1) (-1 0 10) (10 10 5 1) (0 -1 10) (0 10 5 1)
> 2 register a box 0.000 0.000 0.000 0.010 0.010 0.010
  in (0 0 0 1) (0 0 10 1) (0 10 0 1) (10 0 0 1)
  box 0 0 0 10 10 10
= ok
> 3 register b box 0.010 0.000 0.000 0.020 0.010 0.010
  in (10 0 0 1) (10 0 10 1) (10 10 0 1) (20 0 0 1)
  box 10 0 0 20 10 10
= ok
> 4 access a b
  at (10 0 0 1)
= access 1
= parcel a
= parcel b
= level 1 a
= level 0 b
> 5 empty all
= refused limit
> 6 member all 0.000 0.000 0.000 1
= yes
> 7 walk
= refused syntax
";

#[test]
fn reports_of_each_row_are_accepted(rt: HostRuntime) {
    for report in [LOTS, FORMS, SLICES_AND_CHAINS] {
        expect(&rt, rt.alloc(), report, Found::Accepted);
    }
}
