//! Counts of answers.

ghost use Rattle.std.specs.Prelude.{◌≡◌, ◌<◌, ◌^◌};
ghost use Rattle.port_drive.specs.AnswerCounts.Counts.{byte_count, other_count, verdict_count};

use crate::Answers;

/// How many answers have this verdict.
pub fn verdict_count(answers: &Answers, verdict: u32) -> u64
    ensures { result ≡ verdict_count verdict answers.now }
{
    let mut count = 0;
    for i in 0..answers.len() {
        if answers.get(i).verdict == verdict {
            count += 1;
        }
    }
    count
}

/// How many answers have none of the verdicts that XDP names, which are 0 to 4.
pub fn other_count(answers: &Answers) -> u64
    ensures { result ≡ other_count answers.now }
{
    let mut count = 0;
    for i in 0..answers.len() {
        if answers.get(i).verdict > 4 {
            count += 1;
        }
    }
    count
}

/// The bytes of all frames together.
pub fn byte_count(answers: &Answers) -> u64
    requires { byte_count answers.now < 2 ^ 64 }
    ensures { result ≡ byte_count answers.now }
{
    let mut count = 0;
    for i in 0..answers.len() {
        count += answers.get(i).frame.len() as u64;
    }
    count
}
