// What an opening call and a pass answer.
use driver_load::RunAnswer;

// What a run answers, and whether the run is done.
#[derive(Clone, Copy)]
pub struct TurnAnswer {
    pub run: RunAnswer,
    pub done: bool,
}
