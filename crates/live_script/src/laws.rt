//! What holds of every live script.

ghost use Rattle.live_script.specs.Laws.{OneScript, OneScriptRefusal, NoScriptIsRefused, NoScriptIsNeither, OneLiveText};

/// No bytes are a script of two lists of commands.
pub fn one_script()
    ensures { OneScript }
{}

/// Bytes have at most one reason to be refused as a script.
pub fn one_script_refusal()
    ensures { OneScriptRefusal }
{}

/// No bytes that are a script are refused.
pub fn no_script_is_refused()
    ensures { NoScriptIsRefused }
{}

/// No bytes are neither a script nor refused as one, since no text is neither a table nor refused as one.
pub fn no_script_is_neither()
    ensures { NoScriptIsNeither }
{}

/// No bytes are a script with two texts of answers.
pub fn one_live_text()
    ensures { OneLiveText }
{}
