// A state's row of 18 words, and the lowest free slot among 8 such rows.
ghost use Rattle.std.specs.Prelude.{◌≡◌};
ghost use Rattle.std.specs.List.{position};
ghost use Rattle.stages.specs.Stages.{is_free};
ghost use Rattle.dock.specs.Dock.{first_free};
ghost use Rattle.dock_words.specs.View.{stage_of, state_from, state_words, states_of};

use crate::rows::{StateRow, StateRows};
use crate::tags::{Tagged, get_range};
use arithmetic::offsets::BufferOffset;
use dock::dock::SLOTS;
use stages::state::{Course, Job, Phase, Stage, State, is_free};

// The stage in a state's row: its words from 8 on.
#[tactic(auto, unfolding(crate::specs::View::stage_of))]
fn get_stage(row: &StateRow) -> Stage
    ensures { result ≡ stage_of row.now }
{
    Stage {
        asked: get_range(row[8], row[9]),
        request: get_range(row[10], row[11]),
        first: get_range(row[12], row[13]),
        second: get_range(row[14], row[15]),
        head: BufferOffset(row[16] as usize),
        strong: row[17] != 0,
    }
}

// The state in a row.
#[tactic(auto, unfolding(crate::specs::View::state_from))]
pub(crate) fn get_state(row: &StateRow) -> State
    ensures { result ≡ state_from row.now }
{
    State {
        phase: Phase::from_tag(row[0]),
        answer: (row[1] % 256) as u8,
        job: Job::from_tag(row[2]),
        course: Course::from_tag(row[3]),
        range: get_range(row[4], row[5]),
        middle: get_range(row[6], row[7]),
        stage: get_stage(row),
    }
}

// Write a state over a whole row.
pub(crate) fn put_state(row: &mut StateRow, x: State)
    ensures { row.new ≡ state_words x }
{
    let stage = x.stage;
    *row = [
        x.phase.tag(),
        x.answer as u64,
        x.job.tag(),
        x.course.tag(),
        x.range.start.0,
        x.range.end.0,
        x.middle.start.0,
        x.middle.end.0,
        stage.asked.start.0,
        stage.asked.end.0,
        stage.request.start.0,
        stage.request.end.0,
        stage.first.start.0,
        stage.first.end.0,
        stage.second.start.0,
        stage.second.end.0,
        stage.head.0 as u64,
        stage.strong as u64,
    ];
}

// Whether a row is a free slot's, by the phase's word alone.
#[tactic(auto, unfolding(crate::specs::View::state_from))]
pub(crate) fn is_free_row(row: &StateRow) -> bool
    ensures { result ≡ is_free (state_from row.now).phase }
{
    is_free(Phase::from_tag(row[0]))
}

// The first free slot.
fn find_free(states: &StateRows) -> Option<usize>
    ensures { result ≡ position (λ r. is_free (state_from r).phase) states.now }
{
    states.iter().position(is_free_row)
}

// The lowest free slot; 8 where there is none, as `decide` of dock takes it.
pub(crate) fn first_free(states: &StateRows) -> usize
    ensures { result ≡ first_free (states_of states.now) }
{
    find_free(states).unwrap_or(SLOTS)
}
