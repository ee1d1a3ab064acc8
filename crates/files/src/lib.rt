// How `run_houses` and `run_sheets` print an answer: as a row. What comes from the disk and what reaches the terminal
// no contract can say, so each program that runs files has its own few lines that read and print.
//
// Uses `answer` and std.
#![tactic(auto)]

ghost use Rattle.std.specs.Prelude.{◌≡◌};
ghost use Rattle.answer.specs.Told.{told};
ghost use Rattle.files.specs.AnswerRow.{answer_row};

use answer::{Answer, ROW};

// An answer's row: number, row, column, count.
pub fn answer_row(answer: Answer) -> [u32; ROW]
    ensures { result ≡ answer_row (told answer) }
{
    match answer {
        Ok(count) => [0, 0, 0, count, 0, 0, 0, 0],
        Err(refusal) => {
            let number = u32::from(refusal.reason);
            [number, refusal.row, refusal.column, 0, 0, 0, 0, 0]
        }
    }
}
