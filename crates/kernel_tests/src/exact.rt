// Exact kernels against tables, and at a slope and its foot.
ghost use Rattle.side_terms.specs.Corners.{IsFineCorner};

mod rows;

use crate::{edges_and_faces, shadows};
use exact_kernels::Exact;
use mb_base::Corner;
use rounding::Nearest;
use rows::{ANSWERS, CROSSINGS};
use shadow_kernels::{Grid, Meet, Meets};

#[test]
fn agrees_with_the_tables(rt: HostRuntime) {
    let exact = Exact { rounding: Nearest };
    let mut count = 0u8;
    for line in ANSWERS.lines() {
        assert!(rt; shadows::agrees(&exact, line), "{line}");
        count = count.saturating_add(1);
    }
    assert!(rt; count == 50);
    count = 0;
    for line in CROSSINGS.lines() {
        assert!(rt; edges_and_faces::agrees(&exact, line), "{line}");
        assert!(rt; edges_and_faces::turns(&exact, line), "{line} turned");
        count = count.saturating_add(1);
    }
    assert!(rt; count == 80);
}

// A corner without marks, in fine steps.
fn at(x: u8, y: u8) -> Corner
    ensures { IsFineCorner result }
{
    Corner {
        at: [x as i64, y as i64, 0],
        up: [false; 3],
    }
}

// Whether there is an answer, with this count, above or not.
fn is_met(met: Option<Meet>, count: i8, above: bool) -> bool {
    match met {
        Some(m) => m.count == count && m.above == above,
        None => false,
    }
}

// Over the slope from (0, 0) to (3, 1) the corner (2, 1) is a third of a step above it, which rounding loses; and its foot
// (0, 0) counts as moved along it.
#[test]
fn a_slope_is_not_rounded(rt: HostRuntime) {
    let grid = Grid { rounding: Nearest };
    let exact = Exact { rounding: Nearest };
    let slope = [at(0, 0), at(3, 1)];
    let (over, foot) = ([at(2, 1)], [at(0, 0)]);
    assert!(rt; is_met(grid.meet(&over, &slope), 1, false));
    assert!(rt; is_met(exact.meet(&over, &slope), 1, true));
    assert!(rt; grid.meet(&foot, &slope).is_none());
    assert!(rt; is_met(exact.meet(&foot, &slope), 1, false));
}
