use dump_text::write_step;
use pf_geom::{Point, point_at};
use run_model::{BodyLine, RankLine, Sequence, StepText};
use std::alloc::{AllocError, Global};
use std::process::Abort;
use std::test::Fail;

/// A particle's id, owner, place, velocity and forces.
type Given = (u32, u32, [u32; 3], [i64; 3], &'static [i64]);

fn row(alloc: Global, given: &Given) -> Result<BodyLine, Fail> {
    let (id, owner, [x, y, z], vel, forces) = *given;
    let at = point_at(x, y, z).ok_or("no point")?;
    Ok(BodyLine {
        id,
        owner,
        at,
        vel,
        forces: Sequence::from_vec(forces.to_vec(alloc)?),
    })
}

fn rows(alloc: Global, given: &[Given]) -> Result<Vec<BodyLine>, Fail> {
    let mut rows = Vec::new(alloc);
    for given in given {
        rows.push(row(alloc, given)?)?;
    }
    Ok(rows)
}

// A step's number, its ranks, its particles, and its text.
type Case = (u32, &'static [RankLine], &'static [Given], &'static str);

fn are_written(rt: &impl Abort, alloc: Global, cases: &[Case]) -> Result<(), Fail> {
    for (step, ranks, given, wanted) in cases {
        let text = StepText {
            step: *step,
            ranks: Sequence::from_vec(ranks.to_vec(alloc)?),
            rows: Sequence::from_vec(rows(alloc, given)?),
        };
        assert_eq!(rt;
            write_step(alloc, &text)?.as_slice(),
            wanted.as_bytes(),
            "of {step}"
        );
    }
    Ok(())
}

const WITHOUT: RankLine = RankLine {
    particles: 0,
    groups: 0,
    cells: 0,
    parts: 0,
    listcells: 0,
    listparts: 0,
};

const WITH_TWO: RankLine = RankLine {
    particles: 2,
    groups: 1,
    cells: 0,
    parts: 0,
    listcells: 0,
    listparts: 2,
};

const ALL_COUNTS: RankLine = RankLine {
    particles: 1,
    groups: 2,
    cells: 3,
    parts: 4,
    listcells: 5,
    listparts: u64::MAX,
};

const STEPS: [Case; 3] = [
    (
        0,
        &[WITH_TWO],
        &[
            (1, 0, [0, 0, 0], [0; 3], &[24_000, 32_000, 0]),
            (2, 0, [3, 4, 0], [0; 3], &[-24_000, -32_000, 0]),
        ],
        "step 0 particles 2 ranks 1\nrank 0 particles 2 groups 1 cells 0 parts 0 listcells 0 listparts 2\n\
         p 1 0 0 0 0 0 0 0 24000 32000 0\np 2 0 3 4 0 0 0 0 -24000 -32000 0\n",
    ),
    // ranks without particles have their lines
    (
        0,
        &[WITHOUT, WITHOUT],
        &[],
        "step 0 particles 0 ranks 2\nrank 0 particles 0 groups 0 cells 0 parts 0 listcells 0 listparts 0\n\
         rank 1 particles 0 groups 0 cells 0 parts 0 listcells 0 listparts 0\n",
    ),
    // all counts, and the least force
    (
        1_000_000,
        &[ALL_COUNTS],
        &[(
            7,
            63,
            [5, 6, 8],
            [-9, 0, 140_737_488_355_328],
            &[0, 0, 0, i64::MIN],
        )],
        "step 1000000 particles 1 ranks 1\n\
         rank 0 particles 1 groups 2 cells 3 parts 4 listcells 5 listparts 18446744073709551615\n\
         p 7 63 5 6 8 -9 0 140737488355328 0 0 0 -9223372036854775808\n",
    ),
];

#[test]
fn steps_are_written_with_a_line_for_each_rank_and_particle(rt: HostRuntime) -> Result<(), Fail> {
    are_written(&rt, rt.alloc(), &STEPS)
}

// The most particles, with ids of five digits, at rest at the origin.
fn most_rows(alloc: Global) -> Result<Vec<BodyLine>, AllocError> {
    let mut rows = Vec::new(alloc);
    for id in 10_000..75_536 {
        rows.push(BodyLine {
            id,
            owner: 0,
            at: Point { x: 0, y: 0, z: 0 },
            vel: [0; 3],
            forces: Sequence::from_vec(Vec::new(alloc)),
        })?;
    }
    Ok(rows)
}

#[test]
fn the_largest_step_is_written(rt: HostRuntime) -> Result<(), Fail> {
    let alloc = rt.alloc();
    let step = StepText {
        step: 1_000_000,
        ranks: Sequence::from_vec([WITHOUT; 64].to_vec(alloc)?),
        rows: Sequence::from_vec(most_rows(alloc)?),
    };
    // 38 bytes of the step, 4,406 of the ranks, and 22 of each particle
    assert_eq!(rt; write_step(alloc, &step)?.len(), 38 + 4_406 + 22 * 65_536);
    Ok(())
}
