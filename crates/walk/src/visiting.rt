// The visits of a range's runs.
ghost use Rattle.std.specs.Prelude.{◌≡◌, ◌+◌, ◌*◌, ◌^◌, ◌≤◌, ◌<◌, get_or, IfOk};
ghost use Rattle.tables.specs.Reached.{arrived, Holds};
ghost use Rattle.moves.specs.Emit.{so_far, written, same_list, emit};
ghost use Rattle.moves.specs.Moves.{visit_of, recs};
ghost use Rattle.model.specs.Steps.{steps_of};
ghost use Rattle.walk.specs.Given.{chains_in, places_in, begins_in, members_in, row_for, range_for};
ghost use Rattle.walk.specs.Readiness.{none_waits};
ghost use Rattle.walk.specs.Choose.{index_of};
ghost use Rattle.walk.specs.Turns.{best_in, visited, Turned, Fit, Begun};

use crate::given::Given;
use crate::ready::Waits;
use crate::{choice, walking};
use model::{MAX_RUNS, Refusal};
use moves::moving;
use moves::moving::Chains;
use moves::spans::Runs;
use moves::writing::Steps;
use tables::versions;

// How far a walk is: the version, what runs wait for and which are ready, how many of the first are left, and the last run visited.
#[derive(Drop)]
pub(crate) struct Progress {
    pub(crate) version: [u32; MAX_RUNS],
    pub(crate) waits: Waits,
    pub(crate) left: usize,
    pub(crate) last: Option<u32>,
}

impl Progress {
    // The walk begins. What it stands on is made before, since a list by value would be copied.
    fn begin(&mut self, given: &Given)
        requires { self.old.waits ≡ none_waits given.now.runs }
        ensures { Begun given.now self.new }
    {
        versions::start_version(
            &mut self.version,
            &given.areas.chains.chains,
            &given.areas.chains.places,
            given.chains,
            given.known as usize,
        );
        self.waits.start_all(given);
        self.left = (given.first - given.known) as usize;
        self.last = None;
    }

    // The best of the ready runs, at this place of the ready list, is visited.
    fn visit_next(&mut self, given: &Given, at: usize, steps: &mut Steps) -> Result<(), Refusal>
        requires at { at ≡ index_of (best_in given.now self.old) }
        requires fit { Fit given.now self.old }
        ensures same_list { same_list steps.new steps.old }
        ensures steps_after { written result steps.new ≡ emit (so_far steps.old) (visited given.now self.old) }
        ensures moved_bound { (so_far steps.new).0.moved ≤ (so_far steps.old).0.moved + 2 ^ 52 }
        ensures turned { IfOk result (λ _. Turned given.now self.old self.new) }
    {
        let run = self.waits.remove(at);
        visit(given, run, &mut self.version, steps)?;
        self.left = self.waits.wake_visit(given, run, self.left);
        self.last = Some(run);
        Ok(())
    }

    // All visits of a walk that begins: at most one of each run, since no run is visited twice.
    fn visit_all(&mut self, given: &Given, steps: &mut Steps) -> Result<(), Refusal>
        requires { Begun given.now self.old }
        ensures same_list { same_list steps.new steps.old }
        ensures steps_after { written result steps.new ≡ emit (so_far steps.old)
            (recs given.now.starts (steps_of (range_for given.now) given.now.base given.now.known given.now.first)) }
        ensures moved_bound { (so_far steps.new).0.moved ≤ (so_far steps.old).0.moved + given.now.runs * 2 ^ 52 }
    {
        walking::starts_fit(given.starts);
        for _ in 0..given.runs {
            let Some(best) = choice::nearest(given, &self.version, &self.waits, self.last) else {
                return Ok(());
            };
            self.visit_next(given, best.at, steps)?;
        }
        Ok(())
    }
}

// The steps of a run's visit, and the version after it, if they find room.
fn visit(
    given: &Given,
    run: u32,
    current: &mut [u32; MAX_RUNS],
    steps: &mut Steps,
) -> Result<(), Refusal>
    requires { run < given.now.runs }
    ensures same_list { same_list steps.new steps.old }
    ensures steps_after { written result steps.new ≡ emit (so_far steps.old)
        (visit_of given.now.starts given.now.base (members_in given.now) (begins_in given.now) current.old (row_for given.now run) given.now.chains run) }
    ensures moved_bound { (so_far steps.new).0.moved ≤ (so_far steps.old).0.moved + 2 ^ 52 }
    ensures version { IfOk result (λ _. Holds (arrived (row_for given.now run) (get_or (chains_in given.now) run 0) (get_or (places_in given.now) run 0)) given.now.chains current.new) }
{
    walking::starts_fit(given.starts);
    let r = run as usize;
    let row = given.row(r);
    let runs = Runs {
        starts: given.starts,
        base: given.base.0,
    };
    let chains = Chains {
        members: given.members(),
        begins: given.begins(),
        count: given.chains,
    };
    moving::put_visit(steps, runs, chains, current, row, run)?;
    versions::arrive(current, row, given.chains, given.chain(r), given.place(r));
    Ok(())
}

// The walk of a range, after the steps written before.
pub(crate) fn visits(given: &Given, steps: &mut Steps) -> Result<(), Refusal>
    ensures same_list { same_list steps.new steps.old }
    ensures steps_after { written result steps.new ≡ emit (so_far steps.old)
        (recs given.now.starts (steps_of (range_for given.now) given.now.base given.now.known given.now.first)) }
    ensures moved_bound { (so_far steps.new).0.moved ≤ (so_far steps.old).0.moved + given.now.runs * 2 ^ 52 }
{
    let mut walk = Progress {
        version: [0; MAX_RUNS],
        waits: Waits::none(given.runs),
        left: 0,
        last: None,
    };
    walk.begin(given);
    walk.visit_all(given, steps)
}
