//! The laws of the grammar, for each skeleton, each list of refs and each text.
ghost use Rattle.skeleton.specs.Laws.{SkeletonTextIsRead, RefsTextIsRead, SkeletonReadHasText, RefsReadHasText, OneText, OneSkeleton};

/// The text of a skeleton is read as that skeleton, and that of a list of refs as that list.
pub fn spelled_is_read()
    ensures skeleton { SkeletonTextIsRead }
    ensures refs { RefsTextIsRead }
{}

/// What is read is a skeleton, or a list of refs, and the bytes are its text.
pub fn read_is_spelled()
    ensures skeleton { SkeletonReadHasText }
    ensures refs { RefsReadHasText }
{}

/// No two texts are read as one skeleton.
pub fn one_text()
    ensures { OneText }
{}

/// No two skeletons have one text.
pub fn one_skeleton()
    ensures { OneSkeleton }
{}
