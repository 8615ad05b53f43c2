// Steps of each function that writes, in a list, by hand.
use crate::moving::Chains;
use crate::spans::Runs;
use crate::writing::{Kind, Steps};
use crate::{moving, spans};
use model::Refusal;

// Open of runs 0 to 3; run 0's and 1's Apply; a visit of run 3, which was made on run 2, and that on run 0; runs 0, 1 and 3 advanced; a step of
// a kind of its own. Chain 0 has runs 0 and 1, chain 1 runs 2 and 3.
fn write(list: &mut [u32]) -> Result<(), Refusal> {
    let runs = Runs {
        starts: &[0, 2, 5, 6, 10],
        base: 0,
    };
    let chains = Chains {
        members: &[0, 1, 2, 3],
        begins: &[0, 2, 4],
        count: 2,
    };
    let mut steps = Steps::over(list);
    steps.put([3, 0, 4], 0)?;
    steps.put_applies(0, 2)?;
    moving::put_visit(&mut steps, runs, chains, &[2, 0], &[1, 1], 3)?;
    spans::put_stretches(&mut steps, runs, Kind::Advance, &[0, 1, 3])?;
    steps.put_step(Kind::Other(7), 1, 2, 0)
}

// In a list with room for all nine steps and two words more, and in one where the last finds none.
#[test]
fn steps_in_turn(rt: HostRuntime) {
    let mut list = [9; 29];
    let mut short = [9; 26];
    assert!(rt; write(&mut list).is_ok());
    assert!(rt; write(&mut short).is_err());
    let whole = [
        3, 0, 4, 2, 0, 1, 2, 1, 2, 0, 1, 2, 1, 2, 3, 2, 3, 4, 1, 0, 2, 1, 3, 4, 7, 1, 2, 9, 9,
    ];
    let cut = [
        3, 0, 4, 2, 0, 1, 2, 1, 2, 0, 1, 2, 1, 2, 3, 2, 3, 4, 1, 0, 2, 1, 3, 4, 9, 9,
    ];
    assert_eq!(rt; list, whole);
    assert_eq!(rt; short, cut);
}
