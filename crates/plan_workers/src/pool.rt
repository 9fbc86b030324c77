// What a thread takes with it.
use enc_tables::RowPlan;
use row_desk::Seat;

/// The plans that a thread may fill, and its seat at the desk.
#[derive(Drop)]
pub struct Pool {
    // in the order in which their rows were drawn
    pub(crate) plans: Vec<RowPlan>,
    // how many of them are planned
    pub(crate) filled: usize,
    // None while no picture is planned, and while a row is drawn
    pub(crate) seat: Option<Seat>,
}
