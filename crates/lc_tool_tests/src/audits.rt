// Audits over a desk in memory.
use crate::cases::{Case, USAGE, desk_of, expect, expect_all, expect_over, serve};
use crate::renders::{DARK_AND_BRIGHT, NAMES, REFUSED, SECOND_RULE, VIEW};
use lc_desk::{MemoryDesk, Slot};
use lc_num::Memory;
use std::alloc::Global;
use std::test::Fail;

const HEADER: &str = "LCB 1 1 1 1 1000 20\n";

/// The audit of a job of one pixel, whose light is 5242880000000000000000 in each channel.
const AUDIT: Case = Case {
    words: &["audit", "j.txt", "1"],
    ..REFUSED
};

const MISS: Case = Case {
    status: 11,
    ..AUDIT
};

const MISSES: &[Case] = &[
    Case {
        shows: "an estimate one unit above",
        others: &[(
            "b.lcb",
            &[
                HEADER,
                "1 1 5242880000000000000001 5242880000000000000000 5242880000000000000000 0 0 0\n",
            ],
        )],
        note: "audit: sample 0 channel 0 plain 5242880000000000000000 est 5242880000000000000001 bound 0\n",
        ..MISS
    },
    Case {
        shows: "an estimate one unit below",
        others: &[(
            "b.lcb",
            &[
                HEADER,
                "1 1 5242880000000000000000 5242879999999999999999 5242880000000000000001 1 0 0\n",
            ],
        )],
        note: "audit: sample 0 channel 1 plain 5242880000000000000000 est 5242879999999999999999 bound 0\n",
        ..MISS
    },
    Case {
        shows: "a bound one unit above the fraction",
        others: &[(
            "b.lcb",
            &[
                HEADER,
                "1 1 5242880000000000000000 5242880000000000000000 5242880000000000000000 0 0 104857600000000000001\n",
            ],
        )],
        note: "audit: sample 0 channel 2 plain 5242880000000000000000 est 5242880000000000000000 bound 104857600000000000001\n",
        ..MISS
    },
];

#[test]
fn refuses_bounds_that_do_not_hold(rt: HostRuntime) -> Result<(), Fail> {
    expect_all(&rt, MISSES)
}

const YES: Case = Case {
    report: "audit yes 1\n",
    ..AUDIT
};

const HOLDING: &[Case] = &[
    Case {
        shows: "an estimate one unit above, with a bound of one",
        others: &[(
            "b.lcb",
            &[
                HEADER,
                "1 1 5242880000000000000001 5242880000000000000000 5242880000000000000000 1 0 0\n",
            ],
        )],
        ..YES
    },
    Case {
        shows: "a bound as great as the fraction",
        others: &[(
            "b.lcb",
            &[
                HEADER,
                "1 1 5242880000000000000000 5242880000000000000000 5242880000000000000000 0 0 104857600000000000000\n",
            ],
        )],
        ..YES
    },
    Case {
        shows: "a bound above the fraction, in a cut of the greatest size",
        others: &[(
            "b.lcb",
            &[
                HEADER,
                "1000 1000 5242880000000000000000 5242880000000000000000 5242880000000000000000 0 0 104857600000000000001\n",
            ],
        )],
        ..YES
    },
    Case {
        shows: "a record by the second rule",
        job: &[NAMES, VIEW, "error 1000\nrule 2\n"],
        lights: &[DARK_AND_BRIGHT],
        others: &[("b.lcb", &[SECOND_RULE])],
        ..YES
    },
];

#[test]
fn accepts_bounds_that_hold(rt: HostRuntime) -> Result<(), Fail> {
    expect_all(&rt, HOLDING)
}

const LINE: &str =
    "1 1 5242880000000000000000 5242880000000000000000 5242880000000000000000 0 0 0\n";

/// A record that is faulty, or of another job.
const FAULTY: Case = Case {
    others: &[("b.lcb", &[HEADER, LINE])],
    status: 12,
    note: "b.lcb: line 1: kind 4\n",
    ..AUDIT
};

const FAULTY_RECORDS: &[Case] = &[
    Case {
        shows: "a header with a number that begins with 0",
        others: &[("b.lcb", &["LCB 1 1 1 1 1000 020\n", LINE])],
        note: "b.lcb: line 1: kind 1\n",
        ..FAULTY
    },
    Case {
        shows: "a line with a number that begins with 0",
        others: &[("b.lcb", &[HEADER, "01 1 0 0 0 0 0 0\n"])],
        note: "b.lcb: line 2: kind 2\n",
        ..FAULTY
    },
    Case {
        shows: "a record that lacks its line",
        others: &[("b.lcb", &[HEADER])],
        note: "b.lcb: line 2: kind 3\n",
        ..FAULTY
    },
    Case {
        shows: "a record with a line too many",
        others: &[("b.lcb", &[HEADER, "0 0 0 0 0 0 0 0\n0 0 0 0 0 0 0 0\n"])],
        note: "b.lcb: line 3: kind 3\n",
        ..FAULTY
    },
    Case {
        shows: "a record of another cut",
        job: &[NAMES, VIEW, "cut 3\n"],
        ..FAULTY
    },
    Case {
        shows: "a record of another error",
        job: &[NAMES, VIEW, "error 21\n"],
        ..FAULTY
    },
    Case {
        shows: "a record of the second rule for a job of the first",
        others: &[("b.lcb", &["LCB 2 1 1 1 1000 20\n", LINE])],
        ..FAULTY
    },
    Case {
        shows: "a record of the first rule for a job of the second",
        job: &[NAMES, VIEW, "rule 2\n"],
        ..FAULTY
    },
];

#[test]
fn refuses_faulty_records(rt: HostRuntime) -> Result<(), Fail> {
    expect_all(&rt, FAULTY_RECORDS)
}

const NINE: &str = "eye 0 0 5\nat 0 0 0\nview 0.2\nsize 3 3\n";

const FIVE: &str =
    "point 0 0 1.0016 1 1 1\npoint 0.5 0 2 1 0 0.5\nsun 1 2 3 1 1 1\narea -1 -1 3 0 2 0 2 0 0 1 1 1 2\n";

/// Renders of nine pixels, whose records are audited.
const RENDERS: &[Case] = &[
    Case {
        shows: "the first rule",
        job: &[NAMES, NINE],
        lights: &[FIVE],
        ..REFUSED
    },
    Case {
        shows: "the second rule",
        job: &[NAMES, NINE, "rule 2\n"],
        lights: &[FIVE],
        ..REFUSED
    },
    Case {
        shows: "small cuts by the first rule",
        job: &[NAMES, NINE, "cut 3\nerror 0\n"],
        lights: &[FIVE],
        ..REFUSED
    },
    Case {
        shows: "small cuts by the second rule",
        job: &[NAMES, NINE, "cut 3\nerror 0\nrule 2\n"],
        lights: &[FIVE],
        ..REFUSED
    },
];

/// A desk that has the record of this render.
fn desk_with_own_record(alloc: Global, render: &Case) -> Result<MemoryDesk, Memory> {
    let mut rendered = desk_of(alloc, render)?;
    let _ = serve(alloc, render.words, &mut rendered);
    let mut desk = desk_of(alloc, render)?;
    desk.add("b.lcb", rendered.told(Slot::Bounds))?;
    Ok(desk)
}

/// Steps, each with the line on Report.
const STEPS: &[(&[&str], &str)] = &[
    (&["audit", "j.txt", "1"], "audit yes 9\n"),
    (&["audit", "j.txt", "2"], "audit yes 5\n"),
    (&["audit", "j.txt", "4"], "audit yes 3\n"),
    (&["audit", "j.txt", "007"], "audit yes 2\n"),
    (&["audit", "j.txt", "4294967295"], "audit yes 1\n"),
];

#[test]
fn accepts_what_a_render_recorded(rt: HostRuntime) -> Result<(), Fail> {
    for render in RENDERS {
        for (words, report) in STEPS {
            let mut desk = desk_with_own_record(rt.alloc(), render)?;
            let audit = Case {
                words,
                report,
                ..*render
            };
            expect_over(&rt, &mut desk, &audit);
        }
    }
    Ok(())
}

/// Words that are no command.
const NO_AUDITS: &[&[&str]] = &[
    &["audit", "j.txt", "0"],
    &["audit", "j.txt", "4294967296"],
    &["audit", "j.txt", "18446744073709551617"],
    &["audit", "j.txt", "-1"],
    &["audit", "j.txt", "1.0"],
    &["audit", "j.txt", ""],
    &["audit"],
    &["audit", "j.txt"],
    &["audit", "j.txt", "1", "2"],
];

#[test]
fn audits_one_job_by_a_step(rt: HostRuntime) -> Result<(), Fail> {
    for words in NO_AUDITS {
        let case = Case {
            shows: "words that are no audit",
            words,
            status: 2,
            note: USAGE,
            ..AUDIT
        };
        expect(&rt, &case)?;
    }
    Ok(())
}

const BEFORE_RECORDS: &[Case] = &[
    Case {
        shows: "a faulty job before a faulty scene",
        job: &[NAMES, VIEW, "cut 2\n"],
        scene: &["v 0 0\n"],
        lights: &["spot\n"],
        status: 3,
        note: "j.txt: line 8: kind 4\n",
        ..AUDIT
    },
    Case {
        shows: "a faulty scene before faulty lights",
        scene: &["v 0 0\n"],
        lights: &["spot\n"],
        status: 4,
        note: "s.obj: line 1: kind 2\n",
        ..AUDIT
    },
    Case {
        shows: "a library that is absent before faulty lights",
        scene: &["mtllib x.mtl\n"],
        lights: &["spot\n"],
        status: 7,
        note: "x.mtl: absent\n",
        ..AUDIT
    },
    Case {
        shows: "faulty lights before a record that is absent",
        lights: &["spot\n"],
        status: 6,
        note: "l.txt: line 1: kind 1\n",
        ..AUDIT
    },
    Case {
        shows: "a record that is absent",
        status: 7,
        note: "b.lcb: absent\n",
        ..AUDIT
    },
];

#[test]
fn refuses_what_is_read_before_a_record(rt: HostRuntime) -> Result<(), Fail> {
    expect_all(&rt, BEFORE_RECORDS)
}

/// A record whose estimates are 0.
const OFF: Case = Case {
    others: &[("b.lcb", &["LCB 1 1 1 1 1000 20\n1 1 0 0 0 0 0 0\n"])],
    status: 11,
    ..AUDIT
};

/// A record by the second rule, for a job of the first.
const OTHER: Case = Case {
    others: &[("b.lcb", &["LCB 2 1 1 1 1000 20\n1 1 0 0 0 0 0 0\n"])],
    status: 12,
    ..AUDIT
};

const PARTS: &[Case] = &[
    Case {
        shows: "the first piece of a miss, refused after two bytes",
        failing: &[(5, 2)],
        note: "au",
        ..OFF
    },
    Case {
        shows: "the second piece of a miss, refused after two bytes",
        failing: &[(6, 2)],
        note: "audit: s",
        ..OFF
    },
    Case {
        shows: "the first piece of a fault, refused after two bytes",
        failing: &[(5, 2)],
        note: "b.",
        ..OTHER
    },
    Case {
        shows: "the second piece of a fault, refused after two bytes",
        failing: &[(6, 2)],
        note: "b.lcb: ",
        ..OTHER
    },
];

#[test]
fn ends_alike_where_note_fails(rt: HostRuntime) -> Result<(), Fail> {
    expect_all(&rt, PARTS)
}
