//! The laws of sealing.

ghost use Rattle.convergent_seal.specs.Laws.{EqualsSealAlike, SealedOpens, OpensOrClashes};

/// Equal plain texts have one ref and one body, so that a piece is kept once whoever seals it.
pub fn equals_seal_alike()
    ensures { EqualsSealAlike }
{}

/// What was sealed opens to the plain bytes.
pub fn sealed_opens()
    ensures { SealedOpens }
{}

/// Another body than the sealed one opens only where the two have one SHA-256.
pub fn opens_or_clashes()
    ensures { OpensOrClashes }
{}
