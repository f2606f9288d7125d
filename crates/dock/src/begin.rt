// Begin: of a read, a write, zeroes or a discard.
ghost use Rattle.std.specs.Prelude.{◌≡◌, length};
ghost use Rattle.dock.specs.Begin.{InShare, begins, blockers_with, is_aligned, read_of, write_of, zeroes_of, discard_of, selected_of};
ghost use Rattle.dock.specs.Begin.{plan_of, begin_of, enter_at, EnterGives, decided_of, PlanInShare, admit_at, AdmitGives};
ghost use Rattle.blockers.specs.Blockers.{changed};
ghost use Rattle.dock.specs.Dock.{overlaps_of};
ghost use Rattle.vectors.specs.Vectors.{alignment_of};

use crate::bytes::Place;
use crate::dock::{Dock, SLOTS, check_lent, first_free, meets, meets_itself};
use arithmetic::offsets::StoreOffset;
use arithmetic::refusals::Refusal;
use arithmetic::settings::{Alignments, Buffers, Lent, Settings};
use blockers::Blockers;
use stages::plan::{plan_discard, plan_read, plan_write, plan_zeroes, zero_job};
use stages::state::{Job, State, is_blocking};
use vectors::vector::IoVector;

// What is asked of a begin: the job, and where on the store. A read and a write have the length of their vector, the others
// `length` and no vector; what is not the job's is not looked at.
#[derive(Clone, Copy)]
pub struct Asked {
    pub job: Job,
    pub offset: StoreOffset,
    pub length: u64,
    pub vector: IoVector,
}

// By value, the dock beside the answer: it comes back from a refused begin too (`begin_of`).
#[derive(Clone, Copy)]
pub struct Beginning {
    pub answer: Result<Option<usize>, Refusal>,
    pub dock: Dock,
}

// What a begin leaves of the slot it takes.
#[derive(Clone, Copy)]
pub struct Admission {
    pub slot: usize,
    pub blockers: Blockers,
    pub state: State,
}

impl Asked {
    // A read of the vector's length at `offset` into the data.
    pub fn read(offset: StoreOffset, vector: IoVector) -> Asked
        ensures { result ≡ read_of offset vector }
    {
        Asked {
            job: Job::Read,
            offset,
            length: vector.total,
            vector,
        }
    }

    // A write of the vector's bytes at `offset`.
    pub fn write(offset: StoreOffset, vector: IoVector) -> Asked
        ensures { result ≡ write_of offset vector }
    {
        Asked {
            job: Job::Write,
            offset,
            length: vector.total,
            vector,
        }
    }

    // Zeroes over n bytes at `offset`, plain or allocating.
    pub fn zeroes(allocate: bool, offset: StoreOffset, n: u64) -> Asked
        ensures { result ≡ zeroes_of allocate offset n }
    {
        Asked {
            job: zero_job(allocate),
            offset,
            length: n,
            vector: IoVector::new(),
        }
    }

    // A discard of n bytes at `offset`.
    pub fn discard(offset: StoreOffset, n: u64) -> Asked
        ensures { result ≡ discard_of offset n }
    {
        Asked {
            job: Job::Discard,
            offset,
            length: n,
            vector: IoVector::new(),
        }
    }
}

// The vector of a job: zeroes and discards have an empty one.
pub fn select_vector(job: Job, vector: IoVector) -> IoVector
    ensures { result ≡ selected_of job vector }
{
    match job {
        Job::Read | Job::Write => vector,
        Job::Zeroes | Job::AllocatedZeroes | Job::Discard => IoVector::new(),
    }
}

// Whether the vector is aligned for direct requests.
fn is_aligned(v: IoVector, align: Alignments, data: Lent) -> bool
    ensures { result ≡ is_aligned (alignment_of align «data» v) }
{
    let Ok(aligned) = v.is_aligned(align, data) else {
        // for what is no vector over the data too: begin refuses that before it looks at the plan. By the project's rule for the
        // vector's answer this is a let .. else
        return false;
    };
    aligned
}

// The first stage of what is asked: 207 and 206, or no request to make.
pub fn plan_asked(
    asked: Asked,
    settings: Settings,
    buffers: Buffers,
) -> Result<Option<State>, Refusal>
    ensures { result ≡ plan_of asked.job settings buffers asked.offset asked.length asked.vector }
{
    let v = asked.vector;
    let aligned = is_aligned(v, settings.align, buffers.data);
    match asked.job {
        Job::Read => plan_read(settings, asked.offset, v.total, aligned),
        Job::Write => plan_write(settings, asked.offset, v.total, aligned),
        Job::Zeroes => plan_zeroes(settings, false, asked.offset, asked.length),
        Job::AllocatedZeroes => plan_zeroes(settings, true, asked.offset, asked.length),
        Job::Discard => plan_discard(settings, asked.offset, asked.length),
    }
}

// The plan, where nothing refuses it: 201 and 205 by what is lent, 202, the plan's own, 203, 204.
pub fn decide(
    lent: Result<(), Refusal>,
    valid: bool,
    plan: Result<Option<State>, Refusal>,
    met: bool,
    free: usize,
) -> Result<Option<State>, Refusal>
    ensures { result ≡ decided_of lent valid plan met free }
{
    lent?;
    if !valid {
        return Err(Refusal::Segment);
    }
    let Some(x) = plan? else {
        return Ok(None);
    };
    if met {
        return Err(Refusal::Overlap);
    }
    if SLOTS <= free {
        return Err(Refusal::Full);
    }
    Ok(Some(x))
}

// The blockers once the stage of the job in `slot` has entered: strong for a padded write, none for a read.
#[tactic(auto, unfolding(crate::specs::Begin::blockers_with))]
fn enter_blocker(b: Blockers, slot: usize, x: State) -> Result<Blockers, Refusal>
    ensures { result ≡ changed (blockers_with b slot x) }
{
    if !is_blocking(x.phase) {
        return Ok(b);
    }
    let range = x.stage.request;
    if x.stage.strong {
        return b.strong_write_blocker(slot, range);
    }
    b.weak_write_blocker(slot, range)
}

impl Place {
    // The job x comes to its stage: its blocker enters, its bytes are filled where it reads nothing first.
    #[tactic(auto, unfolding(crate::specs::Begin::enter_at))]
    pub(crate) fn enter(
        &self,
        b: Blockers,
        x: State,
        data: &[u8],
        scratch: &mut [u8],
    ) -> Result<Blockers, Refusal>
        requires { InShare self.now.share x (length scratch.old) }
        ensures { EnterGives (enter_at b self.now.slot self.now.share x self.now.vector «data».now scratch.old) result scratch.new }
    {
        let blockers = enter_blocker(b, self.slot, x)?;
        self.fill(x, data, scratch)?;
        Ok(blockers)
    }
}

// A decided job comes to its slot; none does where there is no request to make.
fn admit(
    b: Blockers,
    slot: usize,
    bounce: u64,
    plan: Result<Option<State>, Refusal>,
    v: IoVector,
    data: &[u8],
    scratch: &mut [u8],
) -> Result<Option<Admission>, Refusal>
    requires { PlanInShare slot bounce (length scratch.old) plan }
    ensures { AdmitGives (admit_at b slot bounce v «data».now scratch.old plan) result scratch.new }
{
    let Some(state) = plan? else {
        return Ok(None);
    };
    let place = Place {
        slot,
        share: slot * bounce as usize,
        vector: v,
    };
    let blockers = place.enter(b, state, data, scratch)?;
    Ok(Some(Admission {
        slot,
        blockers,
        state,
    }))
}

impl Dock {
    // Whether a job's vector meets itself, or that of a job in a slot, where one of the two reads.
    fn meets_any(&self, job: Job, v: IoVector) -> bool
        ensures { result ≡ overlaps_of self.now.states self.now.vectors job v }
    {
        let mut met = meets_itself(job, v);
        for (i, x) in self.states.iter().enumerate() {
            met |= meets(*x, self.vectors[i], job, v);
        }
        met
    }

    // Begin what is asked, in the lowest free slot.
    #[tactic(auto, unfolding(crate::specs::Begin::begin_of))]
    pub fn begin(mut self, asked: Asked, data: &[u8], scratch: &mut [u8]) -> Beginning
        ensures { begins result scratch.new ≡ begin_of self asked «data».now scratch.old }
    {
        let settings = self.settings;
        let buffers = self.buffers;
        let job = asked.job;
        let v = select_vector(job, asked.vector);
        let met = self.meets_any(job, v);
        let lent = check_lent(settings, buffers, data.len(), scratch.len());
        let free = first_free(self.states);
        let first = plan_asked(asked, settings, buffers);
        let plan = decide(lent, v.is_valid(data.len()), first, met, free);
        let job = match admit(self.blockers, free, settings.bounce, plan, v, data, scratch) {
            Ok(Some(job)) => job,
            Ok(None) => {
                return Beginning {
                    answer: Ok(None),
                    dock: self,
                };
            }
            Err(r) => {
                return Beginning {
                    answer: Err(r),
                    dock: self,
                };
            }
        };
        self.blockers = job.blockers;
        self.states[job.slot] = job.state;
        self.vectors[job.slot] = v;
        Beginning {
            answer: Ok(Some(job.slot)),
            dock: self,
        }
    }
}
