// The laws between nets and their files, each the contract of a function.
ghost use Rattle.netfile.specs.Laws.{OneNetAFile, FilesHaveRoom, FilesOfPackedNets};
ghost use Rattle.netfile.specs.RoundTrip.{ReadsWhatWasWritten, WritesWhatWasRead};

/// Two nets of a book with one file are alike.
pub fn one_net_a_file()
    ensures { OneNetAFile }
{}

/// No file is longer than the buffer that the writer asks for.
pub fn files_have_room()
    ensures { FilesHaveRoom }
{}

/// Every file is that of a net whose cells stand in places 0, 1, 2 and on.
pub fn files_of_packed_nets()
    ensures { FilesOfPackedNets }
{}

/// Reading what was written of a table of the book gives an alike net, and is never refused.
pub fn reads_what_was_written()
    ensures { ReadsWhatWasWritten }
{}

/// Writing what was read gives the same bytes.
pub fn writes_what_was_read()
    ensures { WritesWhatWasRead }
{}
