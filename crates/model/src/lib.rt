// The reference model of a pair of sheets, and what holds of every list of calls on a pair that was new.
#![tactic(auto)]

ghost use Rattle.model.specs.Guarantee.{GuaranteeLaw};
ghost use Rattle.model.specs.WorkedRun.{WorkedRun};

// The two sheets of a pair: MAKE allows the settings that a card's terms have to cover, BREAK those that they must not.
#[derive(Clone, Copy)]
pub enum Side {
    Make,
    Break,
}

// Where each call on a pair that was new was answered as the reference model answers it, the whole guarantee holds.
pub fn guarantee_law()
    ensures answers_of_the_model_keep_the_guarantee { GuaranteeLaw }
{}

// A worked run: fourteen calls, each with the model's answer.
pub fn worked_run()
    ensures answers_are_the_models { WorkedRun }
{}
