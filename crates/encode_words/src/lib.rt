//! Reads the words of a command line by `clap`.
#![tactic(auto)]

mod choices;
mod options;
mod reading;
mod values;

pub use choices::early;
pub use reading::settings;
pub use spec_words::command::{
    Command, Made, Outputs, SettingFault, Settings, WordFault, WordsEnd,
};
pub use spec_words::name::Name;
