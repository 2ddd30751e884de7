//! Drills that the words ask for.
use crate::checks::{holds, made, same};
use crate::lines::{bare, runs};
use cat_fakes::play;
use cat_run::Status;

/// What a drill of two messages prints.
const TWO: &[u8] = b"given 2\nsum 3318706044697439873\nopen 0\n";

// It prints the three lines, and doesn't call net or pace.
#[test]
fn a_drill_prints_its_lines(rt: HostRuntime) {
    runs(
        &rt,
        "words --drill 2
        comes done
        exit 0
        record yes
        prints drill_of_two
        opened 0
        left 200",
    );
}

// Where the sink fails, a prefix of the lines is written.
#[test]
fn a_drill_ends_where_the_sink_fails(rt: HostRuntime) {
    let mut outside = bare(&rt, rt.alloc());
    made(&rt, outside.sink_fails.push(0));
    let came = made(&rt, play(&rt, &["--drill=2"], outside));
    same(&rt, came.status, Status::OutFault);
    holds(&rt, TWO.starts_with(came.printed.as_slice()));
}
