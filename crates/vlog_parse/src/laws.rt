//! Laws of the definitions.

ghost use Rattle.std.specs.Prelude.{ℕ};
ghost use Rattle.vlog_parse.specs.FileLaws.{FilesAreRead, ReadFilesAreSpelled, FileLinesDontCount};
ghost use Rattle.vlog_parse.specs.Parsing.{OneFile, OneLinedFile, LinedFilesAreFiles};
ghost use Rattle.vlog_parse.specs.Depth.{OneDepth};
ghost use Rattle.vlog_parse.specs.Units.{UnitsAreSpelled, OneItemLine};

/// What is spelled is read.
pub fn spelled_is_read()
    ensures { FilesAreRead }
{}

/// What is read is spelled.
pub fn read_is_spelled()
    ensures { ReadFilesAreSpelled ℕ }
{}

/// Lines change nothing but lines.
pub fn lines_dont_count()
    ensures { FileLinesDontCount ℕ }
{}

/// No two files of good shape have the same tokens.
pub fn one_file()
    ensures { OneFile }
{}

/// The tokens determine a tree's lines: no two files of good shape with lines are the words of one list of tokens.
pub fn one_lined_file()
    ensures { OneLinedFile }
{}

/// A file whose words, lines included, are these tokens has these tokens where lines don't count.
pub fn lined_files_are_files()
    ensures { LinedFilesAreFiles }
{}

/// A limit is first passed on one line, or nowhere.
pub fn one_depth()
    ensures { OneDepth ℕ }
{}

/// A text that is no file is refused for one line.
pub fn one_item_line()
    ensures { OneItemLine }
{}

/// The units of a file are its tokens.
pub fn units_are_spelled()
    ensures { UnitsAreSpelled }
{}
