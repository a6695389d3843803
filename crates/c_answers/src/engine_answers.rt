// The words of what calls 1 and 15 answer.
ghost use Rattle.std.specs.Prelude.{◌≡◌, []};
ghost use Rattle.shape.specs.Calls.{refuses, done};
ghost use Rattle.layout.specs.Verdict.{refusal_of};
ghost use Rattle.starting.specs.Starting.{flat};
ghost use Rattle.c_answers.specs.Answers.{start_words, overview_words};
ghost use Rattle.c_answers.specs.Needs.{NamesFit};

use layout::check::LayoutRefusal;
use layout::sections::Section;
use overview::Overview;

// Of a start that is accepted: no section is named, and first word and words of each.
#[tactic(auto, using(crate::proofs::Sections::seven))]
pub fn section_words(s: [Section; 7]) -> [u32; 16]
    ensures { result ≡ start_words done (flat s) }
{
    let [
        filters11,
        filters29,
        fifo0,
        fifo1,
        buffers,
        events,
        requests,
    ] = s;
    [
        7,
        7,
        filters11.start.0,
        filters11.words,
        filters29.start.0,
        filters29.words,
        fifo0.start.0,
        fifo0.words,
        fifo1.start.0,
        fifo1.words,
        buffers.start.0,
        buffers.words,
        events.start.0,
        events.words,
        requests.start.0,
        requests.words,
    ]
}

// Of a start that is refused: the two sections that it names, 7 for none.
pub fn named_words(n: LayoutRefusal) -> [u32; 2]
    requires { NamesFit (refusal_of n) }
    ensures { result ≡ start_words (refuses (refusal_of n)) [] }
{
    let names = n.naming();
    [names.section as u32, names.other as u32]
}

// Of a status: how the rings stand, and how many buffers are pending.
#[tactic(auto, unfolding(crate::specs::Answers::overview_words))]
pub fn overview_words(t: Overview) -> [u32; 13]
    ensures { result ≡ overview_words t }
{
    [
        t.fifo0.fill,
        t.fifo0.oldest,
        t.fifo0.put,
        t.fifo1.fill,
        t.fifo1.oldest,
        t.fifo1.put,
        t.events.fill,
        t.events.oldest,
        t.events.put,
        t.shared.fill,
        t.shared.oldest,
        t.shared.put,
        t.pending,
    ]
}
