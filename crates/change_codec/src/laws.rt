//! The laws of records.

ghost use Rattle.change_codec.specs.Reading.{ReadsEach};
ghost use Rattle.change_codec.specs.Records.{OneChangeEach};

/// A record stands for one change, of whatever kind.
pub fn one_record_stands_for_one_change()
    ensures { OneChangeEach }
{}

/// A record is read as a change exactly where it stands for it.
pub fn a_record_is_read_as_its_change()
    ensures { ReadsEach }
{}
