// The record of a job as the library for C has it, word by word. Every public function answers for all arguments.
#![tactic(auto)]

ghost use Rattle.std.specs.Prelude.{◌≡◌, ◌≤◌, length};
ghost use Rattle.capi_words.specs.Words.{layout_word};
ghost use Rattle.capi_record.specs.Record.{record_length, word_kind, kind_word, words_job, words_legal, told_by, stored_job};

use capi_words::{LAYOUTS, flag_word, layout_of, store};
use job::Job;
use job_rules::{Kind, Plan};
use pixels::{Dimensions, Rect};
use pixels_layout::PixelLayout;

// How many words a record takes.
pub const RECORD_WORDS: usize = 14;

// Kinds are numbered from 0 in the order of Kind.
const KINDS: u32 = 2;

// The kind that a word names, a picture where it names none. Kept, as layout_of: `word_kind` gives every word one.
fn kind_of(word: u32) -> Kind
    ensures { result ≡ word_kind word }
{
    match word {
        1 => Kind::Plane,
        _ => Kind::Picture,
    }
}

// The words of a layout and of a kind.
fn layout_word(layout: PixelLayout) -> u32
    ensures { result ≡ layout_word layout }
{
    layout as u32
}

fn kind_word(kind: Kind) -> u32
    ensures { result ≡ kind_word kind }
{
    kind as u32
}

// Whether the words make a record: enough of them, the layout's, the flag's and the kind's among their values.
fn legal(words: &[u32]) -> bool
    ensures { result ≡ words_legal words.now }
{
    if words.len() < RECORD_WORDS {
        return false;
    }
    if words[2] >= LAYOUTS {
        return false;
    }
    if words[12] >= KINDS {
        return false;
    }
    words[11] <= 1
}

fn job_of(words: &[u32]) -> Job
    requires { record_length ≤ length words.now }
    ensures { result ≡ words_job words.now }
{
    let source = Dimensions {
        width: words[0],
        height: words[1],
    };
    let crop = Rect {
        x: words[3],
        y: words[4],
        width: words[5],
        height: words[6],
    };
    let target = Dimensions {
        width: words[7],
        height: words[8],
    };
    let layout = layout_of(words[2]);
    let kind = kind_of(words[12]);
    let plan = Plan {
        source,
        layout,
        crop,
        target,
        kind,
        lanes: words[13],
    };
    Job {
        plan,
        accepted: words[9],
        taken: words[10],
        flag: words[11] == 1,
    }
}

// The record that words tell; whether it meets the rules is for the job to say.
// Rules out: a record of thirteen words; a flag word or a kind word of 2 taken; two words exchanged.
pub fn read_job(words: &[u32]) -> Option<Job>
    ensures { result ≡ told_by words.now }
{
    if !legal(words) {
        return None;
    }
    Some(job_of(words))
}

// Stores the words of a record; fewer words than it takes stay as they were.
// Rules out: a word at another place than it is read from; a flag that is not stored.
pub fn store_job(job: Job, words: &mut [u32])
    ensures { words.new ≡ stored_job job words.old }
{
    let plan = job.plan;
    let answer = [
        plan.source.width,
        plan.source.height,
        layout_word(plan.layout),
        plan.crop.x,
        plan.crop.y,
        plan.crop.width,
        plan.crop.height,
        plan.target.width,
        plan.target.height,
        job.accepted,
        job.taken,
        flag_word(job.flag),
        kind_word(plan.kind),
        plan.lanes,
    ];
    store(&answer, words);
}
