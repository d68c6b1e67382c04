//! Laws of the payloads.

ghost use Rattle.ads_commands.specs.Laws.{RequestsComeBack, RepliesComeBack};

/// What is written is read again: a request as it was, a reply with a result other than 0 in its refused form.
pub fn what_is_written_is_read()
    ensures requests { RequestsComeBack }
    ensures replies { RepliesComeBack }
{}
