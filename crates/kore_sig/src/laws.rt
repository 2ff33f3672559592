// Laws of signatures and of the first fault.
ghost use Rattle.kore_sig.specs.SignatureLaws.{FirstIsOne, SignatureIsOne};

/// Does nothing at run time. It gives its caller the laws that a definition has one first fault at
/// most and one signature at most. So the result of `signature` is the only possible one.
pub fn signature_laws()
    ensures first { FirstIsOne }
    ensures one { SignatureIsOne }
{}
