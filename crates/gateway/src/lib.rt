// The functions that users link, under C's names and with the contracts of what they call; include/peng_robinson_board.h describes
// them for C. A slice is a pointer and a length there. A call that a request adds joins them.
#![tactic(auto)]

ghost use Rattle.std.specs.Prelude.{◌≡◌};
ghost use Rattle.records.specs.Answered.{number_of, answered};
ghost use Rattle.board_spec.specs.Board.{submit_board, turn_board, look_board, quote_board};
ghost use Rattle.board.specs.Answers.{number_of as number_said, ticket_of, evaluations_of, density_of, turns_of};
ghost use Rattle.writer.specs.Packed.{filed_by};
ghost use Rattle.writer.specs.Laws.{Answers};

use block::Conditions;

// A whole job without a board: the record's sealed bytes.
#[unsafe(no_mangle)]
pub extern "C" fn pr_answer(kind: u64, n: u64, block: &[u8], record: &mut [u8]) -> u64
    ensures { (result ≡ number_of (answered kind n block.now «record».old).answer) × («record».new ≡ (answered kind n block.now «record».old).bytes) }
{
    let answered = records::answer(kind, n, block, record);
    records::number(answered)
}

// The writer of request blocks: 0 where the block was written, else the first refusal and the buffer as it was.
#[unsafe(no_mangle)]
pub extern "C" fn pr_write_block(
    kind: u64,
    n: u64,
    coefficients: &[f64],
    interactions: &[f64],
    fractions: &[f64],
    choice: u64,
    temperature: f64,
    pressure: f64,
    start: f64,
    block: &mut [u8],
) -> u64
    ensures { Answers kind n (filed_by coefficients.now interactions.now fractions.now (record { choice = choice; temperature = temperature; pressure = pressure; start = start })) block.old result block.new }
{
    let c = Conditions {
        choice,
        temperature,
        pressure,
        start,
    };
    let written = writer::write_block(kind, n, coefficients, interactions, fractions, c, block);
    writer::number(written)
}

// The board's calls. specs/Answers.antt of `board` says what their number means; on a refusal ticket, evaluations, density and turns stay.
#[tactic(auto, unfolding(board::specs::Answers::number_of, board::specs::Answers::ticket_of, board::specs::Answers::submitted_of))]
#[unsafe(no_mangle)]
pub extern "C" fn pr_submit(
    board: &mut [u8],
    queue: u64,
    kind: u64,
    n: u64,
    block: &[u8],
    ticket: &mut u64,
) -> u64
    ensures { (result ≡ number_said (submit_board board.old queue kind n block.now).answer) × (board.new ≡ (submit_board board.old queue kind n block.now).board) × (ticket.new ≡ ticket_of ticket.old (submit_board board.old queue kind n block.now).answer) }
{
    match board::submit(board, queue, kind, n, block) {
        Ok(count) => {
            *ticket = count;
            0
        }
        Err(refusal) => u64::from(refusal),
    }
}

#[tactic(auto, unfolding(board::specs::Answers::number_of, board::specs::Answers::turned_of))]
#[unsafe(no_mangle)]
pub extern "C" fn pr_turn(board: &mut [u8], record: &mut [u8]) -> u64
    ensures { (result ≡ number_said (turn_board board.old «record».old).answer) × (board.new ≡ (turn_board board.old «record».old).board) × («record».new ≡ (turn_board board.old «record».old).buffer) }
{
    match board::turn(board, record) {
        Ok(written) => u64::from(written),
        Err(refusal) => u64::from(refusal),
    }
}

#[tactic(auto, unfolding(board::specs::Answers::number_of, board::specs::Answers::evaluations_of, board::specs::Answers::density_of, board::specs::Answers::looked_of))]
#[unsafe(no_mangle)]
pub extern "C" fn pr_look(board: &[u8], queue: u64, evaluations: &mut u64, density: &mut f64) -> u64
    ensures { (result ≡ number_said (look_board board.now queue).answer) × (evaluations.new ≡ evaluations_of evaluations.old (look_board board.now queue).answer) × (density.new ≡ density_of density.old (look_board board.now queue).answer) }
{
    match board::look(board, queue) {
        Ok(shown) => {
            *evaluations = shown.evaluations;
            *density = shown.density;
            0
        }
        Err(refusal) => u64::from(refusal),
    }
}

#[tactic(auto, unfolding(board::specs::Answers::number_of, board::specs::Answers::turns_of, board::specs::Answers::quoted_of))]
#[unsafe(no_mangle)]
pub extern "C" fn pr_quote(board: &[u8], queue: u64, kind: u64, turns: &mut u64) -> u64
    ensures { (result ≡ number_said (quote_board board.now queue kind).answer) × (turns.new ≡ turns_of turns.old (quote_board board.now queue kind).answer) }
{
    match board::quote(board, queue, kind) {
        Ok(count) => {
            *turns = count;
            0
        }
        Err(refusal) => u64::from(refusal),
    }
}
