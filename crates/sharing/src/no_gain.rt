ghost use Rattle.sharing.specs.LineUp.{LineUpsKeepNoGain};

// What the stability of a plan asks of a rule beside its laws, every line-up keeps.
pub fn line_ups_keep_no_gain()
    ensures { LineUpsKeepNoGain }
{}
