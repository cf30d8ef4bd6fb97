//! That the reader reads exactly the files of the form, and each printed text as what was printed.
//! These calls do nothing: what each ensures is the law.
ghost use Rattle.graph_text.specs.Canonical.{FileIsOfTheForm, FileIsRead, FileTextIsRead, GraphTextIsRead};

/// What is read as graphs is of their form, line by line and word by word.
pub fn file_is_of_the_form()
    ensures { FileIsOfTheForm }
{}

/// A text of the form of graphs is read as these graphs.
pub fn file_is_read()
    ensures { FileIsRead }
{}

/// The canonical texts of graphs, one behind the other, are read as these graphs.
pub fn file_text_is_read()
    ensures { FileTextIsRead }
{}

/// The canonical text of a graph, as it is printed, is read as this graph.
pub fn graph_text_is_read()
    ensures { GraphTextIsRead }
{}
