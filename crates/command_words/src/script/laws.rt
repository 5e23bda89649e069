//! A script at work.
ghost use Rattle.command_words.specs.ScriptWorked.{WorkedScript};

/// The script for 7.
pub fn worked_script()
    ensures { WorkedScript }
{}
