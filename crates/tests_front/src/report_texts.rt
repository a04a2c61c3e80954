//! Texts of reports: read back and printed again, and their first bad lines; and texts of numbers alone.

use crate::rows::{About, all_answered, cut, number_at};
use std::alloc::Global;
use un_base::memory_error::NoMemory;
use un_ir::text::{put_number, put_text};
use un_report::print::print_report;
use un_report_reader::error::ReportError;
use un_report_reader::read::{read_numbers, read_report, read_view};

/// Texts, each with its first bad line, or that it is printed again as it stands; `line` has another line of a number, and `many` so many
/// open leaves and the end behind the text.
static ROWS: &[u8] =
    b"# The report of the smallest function, its first lines alone, and reports that were altered, read by another program from the rules.\
|unison 1\nfunction f\nmodel regs all slots 64 nodes 2000\nanswer code\ncost 1\nbound 1\nlisting 3\nframe 0\nblock e\n{ jumpr r31 }\nsolution 124\n16 17 18 19 20 21 22 23 24 25 26 27 31 0 0 0\n0 0 0 0 0 0 0 0 0 0 0 0 0 0 0 0\n0 0 0 0 0 0 0 0 0 0 0 0 0 0 0 0\n0 0 0 0 0 0 0 0 0 0 0 0 1 0 0 0\n0 0 0 0 0 0 0 0 0 0 0 0 0 0 0 0\n0 0 0 0 0 0 0 0 0 0 0 0 0 0 0 0\n0 0 0 0 0 0 0 0 0 0 0 0 0 0 0 0\n0 0 0 0 0 0 0 0 0 0 2 0\ntree 1\nC\nend\n?same:yes\
|&?first 0:bad 1\
|&?first 1:bad 2\
|&?first 2:bad 3\
|&?first 3:bad 4\
|&?first 4:bad 5\
|&?first 5:bad 6\
|&?first 6:bad 7\
|&?first 7:bad 8\
|&?first 8:bad 9\
|&?first 9:bad 10\
|&?first 10:bad 11\
|&?first 11:bad 12\
|&?first 12:bad 13\
|&?first 13:bad 14\
|&?first 14:bad 15\
|&?first 15:bad 16\
|&?first 16:bad 17\
|&?first 17:bad 18\
|&?first 18:bad 19\
|&?first 19:bad 20\
|&?first 20:bad 21\
|&?first 21:bad 22\
|unison 1\nfunction f\nmodel regs all slots 64 nodes 1\nanswer code\ncost 6\nbound 1\nlisting 8\nframe 8\nblock e\n{ r29 = add(r29,#-8) }\n{ memw(r29+#0) = r31 }\n{ r31 = memw(r29+#0) }\n{ nop }\n{ r29 = add(r29,#8) }\n{ jumpr r31 }\nsolution 124\n16 17 18 19 20 21 22 23 24 25 26 27 31 0 0 0\n0 0 0 0 0 0 0 0 0 0 0 0 0 0 0 0\n0 0 0 0 0 0 0 0 0 0 0 0 0 0 0 0\n0 2 2 36 1 1 1 5 3 3 1 31 6 2 0 0\n0 0 0 0 0 0 0 0 0 0 0 0 0 0 0 0\n0 0 0 0 0 0 0 0 0 0 0 0 0 0 0 0\n0 0 0 0 0 0 0 0 0 0 0 0 0 0 0 0\n0 0 0 0 0 0 0 0 0 0 7 1\ntree 1\nO\nend\n?same:yes\
|unison 1\nfunction f\nmodel regs all slots 64 nodes 1\nanswer code\ncost 6\nbound 1\nlisting 8\nframe 8\nblock e\n{ r29 = add(r29,#-8) }\n{ memw(r29+#0) = r31 }\n{ r31 = memw(r29+#0) }\n{ nop }\n{ r29 = add(r29,#8) }\n{ jumpr r31 }\nsolution 124\n16 17 18 19 20 21 22 23 24 25 26 27 31 0 0 0\n0 0 0 0 0 0 0 0 0 0 0 0 0 0 0 0\n0 0 0 0 0 0 0 0 0 0 0 0 0 0 0 0\n0 2 2 36 1 1 1 5 3 3 1 31 6 2 0 0\n0 0 0 0 0 0 0 0 0 0 0 0 0 0 0 0\n0 0 0 0 0 0 0 0 0 0 0 0 0 0 0 0\n0 0 0 0 0 0 0 0 0 0 0 0 0 0 0 0\n0 0 0 0 0 0 0 0 0 0 7 1\ntree 1\nO\nC\nend\n?read:bad 27\
|unison 1\nfunction f\n?read:bad 3\
|unison 1\nfunction f\nmodel regs all slots 64 nodes 1\nanswer code\ncost 6\nbound 1\nlisting 8\nframe 8\nblock e\n{ r29 = add(r29,#-8) }\n{ memw(r29+#0) = r31 }\n{ r31 = memw(r29+#0) }\n{ nop }\n{ r29 = add(r29,#8) }\n{ jumpr r31 }\nsolution 124\n16 17 18 19 20 21 22 23 24 25 26 27 31 0 0 0\n0 0 0 0 0 0 0 0 0 0 0 0 0 0 0 0\n0 0 0 0 0 0 0 0 0 0 0 0 0 0 0 0\n0 2 2 36 1 1 1 5 3 3 1 31 6 2 0 0\n0 0 0 0 0 0 0 0 0 0 0 0 0 0 0 0\n0 0 0 0 0 0 0 0 0 0 0 0 0 0 0 0\n0 0 0 0 0 0 0 0 0 0 0 0 0 0 0 0\n0 0 0 0 0 0 0 0 0 0 7 1\ntree 1\nB 00 1\nend\n?read:bad 26\
|unison 0\nfunction f\nmodel regs all slots 64 nodes 1\nanswer code\ncost 6\nbound 1\nlisting 8\nframe 8\nblock e\n{ r29 = add(r29,#-8) }\n{ memw(r29+#0) = r31 }\n{ r31 = memw(r29+#0) }\n{ nop }\n{ r29 = add(r29,#8) }\n{ jumpr r31 }\nsolution 124\n16 17 18 19 20 21 22 23 24 25 26 27 31 0 0 0\n0 0 0 0 0 0 0 0 0 0 0 0 0 0 0 0\n0 0 0 0 0 0 0 0 0 0 0 0 0 0 0 0\n0 2 2 36 1 1 1 5 3 3 1 31 6 2 0 0\n0 0 0 0 0 0 0 0 0 0 0 0 0 0 0 0\n0 0 0 0 0 0 0 0 0 0 0 0 0 0 0 0\n0 0 0 0 0 0 0 0 0 0 0 0 0 0 0 0\n0 0 0 0 0 0 0 0 0 0 7 1\ntree 1\nO\nend\n?read:bad 1\
|unison 1\nfunction f\nmodel regs 30 slots 64 nodes 1\nanswer code\ncost 6\nbound 1\nlisting 8\nframe 8\nblock e\n{ r29 = add(r29,#-8) }\n{ memw(r29+#0) = r31 }\n{ r31 = memw(r29+#0) }\n{ nop }\n{ r29 = add(r29,#8) }\n{ jumpr r31 }\nsolution 124\n16 17 18 19 20 21 22 23 24 25 26 27 31 0 0 0\n0 0 0 0 0 0 0 0 0 0 0 0 0 0 0 0\n0 0 0 0 0 0 0 0 0 0 0 0 0 0 0 0\n0 2 2 36 1 1 1 5 3 3 1 31 6 2 0 0\n0 0 0 0 0 0 0 0 0 0 0 0 0 0 0 0\n0 0 0 0 0 0 0 0 0 0 0 0 0 0 0 0\n0 0 0 0 0 0 0 0 0 0 0 0 0 0 0 0\n0 0 0 0 0 0 0 0 0 0 7 1\ntree 1\nO\nend\n?read:bad 3\
|unison 1\nfunction f\nmodel regs all slots 64 nodes 1\nanswer code\ncost 6\nbound 1\nlisting 8\nframe 8\nblock e\n{ r29 = add(r29,#-8) }\n{ memw(r29+#0) = r31 }\n{ r31 = memw(r29+#0) }\n{ nop }\n{ r29 = add(r29,#8) }\n{ jumpr r31 }\nsolution 124\n16 17 18 19 20 21 22 23 24 25 26 27 31 0 0 0\n0 0 0 0 0 0 0 0 0 0 0 0 0 0 0 0\n0 0 0 0 0 0 0 0 0 0 0 0 0 0 0 0\n0 2 2 36 1 1 1 5 3 3 1 31 6 2 0 0\n0 0 0 0 0 0 0 0 0 0 0 0 0 0 0 0\n0 0 0 0 0 0 0 0 0 0 0 0 0 0 0 0\n0 0 0 0 0 0 0 0 0 0 0 0 0 0 0 0\n0 0 0 0 0 0 0 0 0 0 7 1\ntree 1\nP -\nend\n?read:bad 26\
|unison 1\nfunction f\nmodel regs all slots 64 nodes 2000\nanswer code\ncost 1\nbound 1\nlisting 3\nframe 0\nblock e\n{ jumpr r31 }\nsolution 124\n16 17 18 19 20 21 22 23 24 25 26 27 31 0 0 0\n0 0 0 0 0 0 0 0 0 0 0 0 0 0 0 0\n0 0 0 0 0 0 0 0 0 0 0 0 0 0 0 0\n0 0 0 0 0 0 0 0 0 0 0 0 1 0 0 0\n0 0 0 0 0 0 0 0 0 0 0 0 0 0 0 0\n0 0 0 0 0 0 0 0 0 0 0 0 0 0 0 0\n0 0 0 0 0 0 0 0 0 0 0 0 0 0 0 0\n0 0 0 0 0 0 0 0 0 0 2 0\n0 0 0 0 0 0 0 0 0 0 2 0\nC\nend\n?read:bad 20\
|unison 1\nfunction f\nmodel regs all slots 64 nodes 2000\nanswer code\ncost 1\nbound 1\nlisting 3\nframe 0\nblock e\n{ jumpr r31 }\nsolution 124\n16 17 18 19 20 21 22 23 24 25 26 27 31 0 0 0\n0 0 0 0 0 0 0 0 0 0 0 0 0 0 0 0\n0 0 0 0 0 0 0 0 0 0 0 0 0 0 0 0\n0 0 0 0 0 0 0 0 0 0 0 0 1 0 0 0\n0 0 0 0 0 0 0 0 0 0 0 0 0 0 0 0\n0 0 0 0 0 0 0 0 0 0 0 0 0 0 0 0\n0 0 0 0 0 0 0 0 0 0 0 0 0 0 0 0\n0 0 0 0 0 0 0 0 0 0 2 0\ntree 1\no\nend\n?read:bad 21\
|unison 1\nfunction f\nmodel regs all slots 64 nodes 2000\nanswer code\ncost 1\nbound 1\nlisting 3\nframe 0\nblock e\n{ jumpr r31 }\nsolution 124\n16 17 18 19 20 21 22 23 24 25 26 27 31 0 0 0\n0 0 0 0 0 0 0 0 0 0 0 0 0 0 0 0\n0 0 0 0 0 0 0 0 0 0 0 0 0 0 0 0\n0 0 0 0 0 0 0 0 0 0 0 0 1 0 0 0\n0 0 0 0 0 0 0 0 0 0 0 0 0 0 0 0\n0 0 0 0 0 0 0 0 0 0 0 0 0 0 0 0\n0 0 0 0 0 0 0 0 0 0 0 0 0 0 0 0\n0 0 0 0 0 0 0 0 0 0 0 0 0 0 0 0\n0 0 0 0 0 0 0 0 0 0 2 0\ntree 1\nC\nend\n?read:bad 19\
|unison 1\nfunction f\nmodel regs all slots 64 nodes 2000\nanswer code\ncost 1\nbound 1\nlisting 3\nframe 264\nblock e\n{ jumpr r31 }\nsolution 124\n16 17 18 19 20 21 22 23 24 25 26 27 31 0 0 0\n0 0 0 0 0 0 0 0 0 0 0 0 0 0 0 0\n0 0 0 0 0 0 0 0 0 0 0 0 0 0 0 0\n0 0 0 0 0 0 0 0 0 0 0 0 1 0 0 0\n0 0 0 0 0 0 0 0 0 0 0 0 0 0 0 0\n0 0 0 0 0 0 0 0 0 0 0 0 0 0 0 0\n0 0 0 0 0 0 0 0 0 0 0 0 0 0 0 0\n0 0 0 0 0 0 0 0 0 0 2 0\ntree 1\nC\nend\n?read:bad 8\
|unison 1\nfunction f\nmodel regs all slots 64 nodes 2000\nmodel regs all slots 64 nodes 2000\nanswer code\ncost 1\nbound 1\nlisting 3\nframe 0\nblock e\n{ jumpr r31 }\nsolution 124\n16 17 18 19 20 21 22 23 24 25 26 27 31 0 0 0\n0 0 0 0 0 0 0 0 0 0 0 0 0 0 0 0\n0 0 0 0 0 0 0 0 0 0 0 0 0 0 0 0\n0 0 0 0 0 0 0 0 0 0 0 0 1 0 0 0\n0 0 0 0 0 0 0 0 0 0 0 0 0 0 0 0\n0 0 0 0 0 0 0 0 0 0 0 0 0 0 0 0\n0 0 0 0 0 0 0 0 0 0 0 0 0 0 0 0\n0 0 0 0 0 0 0 0 0 0 2 0\ntree 1\nC\nend\n?read:bad 4\
|unison 1\nfunction f\nmodel regs all slots 64 nodes 2000\nanswer code\ncost 1\nbound 1\nlisting 2\nframe 0\nblock e\n{ jumpr r31 }\nsolution 124\n16 17 18 19 20 21 22 23 24 25 26 27 31 0 0 0\n0 0 0 0 0 0 0 0 0 0 0 0 0 0 0 0\n0 0 0 0 0 0 0 0 0 0 0 0 0 0 0 0\n0 0 0 0 0 0 0 0 0 0 0 0 1 0 0 0\n0 0 0 0 0 0 0 0 0 0 0 0 0 0 0 0\n0 0 0 0 0 0 0 0 0 0 0 0 0 0 0 0\n0 0 0 0 0 0 0 0 0 0 0 0 0 0 0 0\n0 0 0 0 0 0 0 0 0 0 2 0\ntree 1\nC\nend\n?read:bad 9\
|unison 1\nfunction g\nmodel regs all slots 64 nodes 2000\nanswer code\ncost 10\nbound 10\nlisting 3\nframe 0\nblock e\n{ r0 = add(r0,r1); jumpr r31 }\nsolution 152\n0 1 16 17 18 19 20 21 22 23 24 25 26 27 31 0\n0 0 0 0 0 0 0 0 0 0 0 0 0 0 0 0\n0 0 0 0 0 0 0 0 0 0 0 0 0 0 0 0\n0 0 0 0 0 0 0 0 0 0 0 0 0 0 0 0\n0 0 0 0 0 0 1 0 0 0 0 0 0 0 0 0\n0 0 0 1 0 0 0 0 0 0 0 0 0 0 0 0\n0 0 0 0 0 0 0 0 0 0 0 0 0 0 0 0\n0 0 0 0 0 0 0 0 0 0 0 0 0 0 0 0\n0 0 0 0 0 0 0 0 0 0 0 0 0 0 0 0\n0 0 0 0 0 0 2 0\ntree 1\nC\nend\n?same:yes\
|unison 1\nfunction g\nmodel regs all slots 64 nodes 2000\nanswer code\ncost 10\nbound 10\nlisting 3\nframe 0\nblock e\n{ r0 = add(r0,r1); jumpr r31 }\nsolution 152\n0 1 16 17 18 19 20 21 22 23 24 25 26 27 31 0\n0 0 0 0 0 0 0 0 0 0 0 0 0 0 0 0\n0 0 0 0 0 0 0 0 0 0 0 0 0 0 0 0\n0 0 0 0 0 0 0 0 0 0 0 0 0 0 0 0\n0 0 0 0 0 0 1 0 0 0 0 0 0 0 0 0\n0 0 0 1 0 0 0 0 0 0 0 0 0 0 0 0\n0 0 0 0 0 0 0 0 0 0 0 0 0 0 0 0\n0 0 0 0 0 0 0 0 0 0 0 0 0 0 0 0\n0 0 0 0 0 0 0 0 0 0 0 0 0 0 0 0\n0 0 0 0 0 0 2 0\ntree 1\nC\nC\nend\n?read:bad 24\
|unison 1\nfunction g\nmodel regs all slots 64 nodes 2000\nanswer code\ncost 10\nbound 10\nlisting 3\nframe 0\nblock e\n{ r0 = add(r0,r1); jumpr r31 }\nsolution 152\n0 1 16 17 18 19 20 21 22 23 24 25 26 27 31 0\n0 0 0 0 0 0 0 0 0 0 0 0 0 0 0 0\n0 0 0 0 0 0 0 0 0 0 0 0 0 0 0 0\n0 0 0 0 0 0 0 0 0 0 0 0 0 0 0 0\n0 0 0 0 0 0 1 0 0 0 0 0 0 0 0 0\n0 0 0 1 0 0 0 0 0 0 0 0 0 0 0 0\n0 0 0 0 0 0 0 0 0 0 0 0 0 0 0 0\n0 0 0 0 0 0 0 0 0 0 0 0 0 0 0 0\n0 0 0 0 0 0 0 0 0 0 0 0 0 0 0 0\n0 0 0 0 0 0 2 0\ntree 1\nC\nend\nend\n?read:bad 25\
|unison 1\nfunction g\nmodel regs all slots 64 nodes 2000\nanswer code\ncost 10\nbound 10\nlisting 3\nframe 0\nblock e\n{ r0 = add(r0,r1); jumpr r31 }\nsolution 152\n0 1 16 17 18 19 20 21 22 23 24 25 26 27 31 0\n0 0 0 0 0 0 0 0 0 0 0 0 0 0 0 0\n0 0 0 0 0 0 0 0 0 0 0 0 0 0 0 0\n0 0 0 0 0 0 0 0 0 0 0 0 0 0 0 0\n0 0 0 0 0 0 1 0 0 0 0 0 0 0 0 0\n0 0 0 1 0 0 0 0 0 0 0 0 0 0 0 0\n0 0 0 0 0 0 0 0 0 0 0 0 0 0 0 0\n0 0 0 0 0 0 0 0 0 0 0 0 0 0 0 0\n0 0 0 0 0 0 0 0 0 0 0 0 0 0 0 0\n0 0 0 0 0 0 2 0\ntree 1\nS\nend\n?read:bad 23\
|\nunison 1\nfunction g\nmodel regs all slots 64 nodes 2000\nanswer code\ncost 10\nbound 10\nlisting 3\nframe 0\nblock e\n{ r0 = add(r0,r1); jumpr r31 }\nsolution 152\n0 1 16 17 18 19 20 21 22 23 24 25 26 27 31 0\n0 0 0 0 0 0 0 0 0 0 0 0 0 0 0 0\n0 0 0 0 0 0 0 0 0 0 0 0 0 0 0 0\n0 0 0 0 0 0 0 0 0 0 0 0 0 0 0 0\n0 0 0 0 0 0 1 0 0 0 0 0 0 0 0 0\n0 0 0 1 0 0 0 0 0 0 0 0 0 0 0 0\n0 0 0 0 0 0 0 0 0 0 0 0 0 0 0 0\n0 0 0 0 0 0 0 0 0 0 0 0 0 0 0 0\n0 0 0 0 0 0 0 0 0 0 0 0 0 0 0 0\n0 0 0 0 0 0 2 0\ntree 1\nC\nend\n?read:bad 1\
|unison 1\nfunction g\nmodel regs all slots 64 nodes 2000\nanswer code\ncost 10\nbound 10\nlisting 3\nframe 0\nblock e\n{ r0 = add(r0,r1); jumpr r31 }\nsolution 152\n0 1 16 17 18 19 20 21 22 23 24 25 26 27 31 0\n0 0 0 0 0 0 0 0 0 0 0 0 0 0 0 0\n0 0 0 0 0 0 0 0 0 0 0 0 0 0 0 0\n0 0 0 0 0 0 0 0 0 0 0 0 0 0 0 0\n0 0 0 0 0 0 1 0 0 0 0 0 0 0 0 0\n0 0 0 1 0 0 0 0 0 0 0 0 0 0 0 0\r\n0 0 0 0 0 0 0 0 0 0 0 0 0 0 0 0\n0 0 0 0 0 0 0 0 0 0 0 0 0 0 0 0\n0 0 0 0 0 0 0 0 0 0 0 0 0 0 0 0\n0 0 0 0 0 0 2 0\ntree 1\nC\nend\n?read:bad 17\
|unison 1\nfunction 1f\nmodel regs all slots 64 nodes 2000\nanswer code\ncost 10\nbound 10\nlisting 3\nframe 0\nblock e\n{ r0 = add(r0,r1); jumpr r31 }\nsolution 152\n0 1 16 17 18 19 20 21 22 23 24 25 26 27 31 0\n0 0 0 0 0 0 0 0 0 0 0 0 0 0 0 0\n0 0 0 0 0 0 0 0 0 0 0 0 0 0 0 0\n0 0 0 0 0 0 0 0 0 0 0 0 0 0 0 0\n0 0 0 0 0 0 1 0 0 0 0 0 0 0 0 0\n0 0 0 1 0 0 0 0 0 0 0 0 0 0 0 0\n0 0 0 0 0 0 0 0 0 0 0 0 0 0 0 0\n0 0 0 0 0 0 0 0 0 0 0 0 0 0 0 0\n0 0 0 0 0 0 0 0 0 0 0 0 0 0 0 0\n0 0 0 0 0 0 2 0\ntree 1\nC\nend\n?read:bad 2\
|unison 1\nfunction x\nmodel regs all slots 3 nodes 6\nanswer code\ncost 10\nbound 1\nlisting 12\nframe 16\nblock e\n{ r29 = add(r29,#-16) }\n{ memw(r29+#0) = r0 }\n{ memw(r29+#4) = r1 }\n{ memw(r29+#8) = r31; r0 = memw(r29+#4) }\n{ r1 = memw(r29+#0) }\n{ nop }\n{ call h(r0,r1) }\n{ r31 = memw(r29+#8) }\n{ r29 = add(r29,#16) }\n{ jumpr r31 }\nsolution 143\n0 1 16 17 18 19 20 21 22 23 24 25 26 27 31 2\n2 36 2 3 37 0 0 0 0 0 0 0 0 0 0 0\n0 0 0 0 0 0 0 0 0 0 0 0 0 0 0 0\n0 0 0 0 0 0 0 0 0 2 4 38 1 1 3 4\n1 0 3 5 1 1 7 2 2 1 9 3 8 1 31 10\n2 0 0 0 0 0 0 0 0 0 0 0 0 0 0 0\n0 0 0 0 0 0 0 0 0 0 0 0 0 0 0 0\n0 0 0 0 0 0 0 0 0 0 0 0 0 0 0 0\n0 0 0 0 0 0 0 0 0 0 0 0 0 11 1\ntree 5\nB 141 3\nO\nB 70 1\nO\nO\nend\n?same:yes\
|unison 1\nfunction x\nmodel regs all slots 3 nodes 6\nanswer code\ncost 10\nbound 1\nlisting 12\nframe 16\nblock e\n{ r29 = add(r29,#-16) }\n{ memw(r29+#0) = r0 }\n{ memw(r29+#4) = r1 }\n{ memw(r29+#8) = r31; r0 = memw(r29+#4) }\n{ r1 = memw(r29+#0) }\n{ nop }\n{ call h(r0,r1) }\n{ r31 = memw(r29+#8) }\n{ r29 = add(r29,#16) }\n{ jumpr r31 }\nsolution 143\n0 1 16 17 18 19 20 21 22 23 24 25 26 27 31 2\n2 36 2 3 37 0 0 0 0 0 0 0 0 0 0 0\n0 0 0 0 0 0 0 0 0 0 0 0 0 0 0 0\n0 0 0 0 0 0 0 0 0 2 4 38 1 1 3 4\n1 0 3 5 1 1 7 2 2 1 9 3 8 1 31 10\n2 0 0 0 0 0 0 0 0 0 0 0 0 0 0 0\n0 0 0 0 0 0 0 0 0 0 0 0 0 0 0 0\n0 0 0 0 0 0 0 0 0 0 0 0 0 0 0 0\n0 0 0 0 0 0 0 0 0 0 0 0 0 11 1\ntree 5\nB 141 3\nS\nB 70 1\nO\nO\nend\n?read:bad 32\
|unison 1\nfunction x\nmodel regs all slots 3 nodes 6\nanswer code\ncost 10\nbound 1\nlisting 12\nframe 16\nblock e \n{ r29 = add(r29,#-16) }\n{ memw(r29+#0) = r0 }\n{ memw(r29+#4) = r1 }\n{ memw(r29+#8) = r31; r0 = memw(r29+#4) }\n{ r1 = memw(r29+#0) }\n{ nop }\n{ call h(r0,r1) }\n{ r31 = memw(r29+#8) }\n{ r29 = add(r29,#16) }\n{ jumpr r31 }\nsolution 143\n0 1 16 17 18 19 20 21 22 23 24 25 26 27 31 2\n2 36 2 3 37 0 0 0 0 0 0 0 0 0 0 0\n0 0 0 0 0 0 0 0 0 0 0 0 0 0 0 0\n0 0 0 0 0 0 0 0 0 2 4 38 1 1 3 4\n1 0 3 5 1 1 7 2 2 1 9 3 8 1 31 10\n2 0 0 0 0 0 0 0 0 0 0 0 0 0 0 0\n0 0 0 0 0 0 0 0 0 0 0 0 0 0 0 0\n0 0 0 0 0 0 0 0 0 0 0 0 0 0 0 0\n0 0 0 0 0 0 0 0 0 0 0 0 0 11 1\ntree 5\nB 141 3\nO\nB 70 1\nO\nO\nend\n?read:bad 9\
|unison 1\nfunction 1f\nmodel regs all slots 3 nodes 6\nanswer code\ncost 10\nbound 1\nlisting 12\nframe 16\nblock e\n{ r29 = add(r29,#-16) }\n{ memw(r29+#0) = r0 }\n{ memw(r29+#4) = r1 }\n{ memw(r29+#8) = r31; r0 = memw(r29+#4) }\n{ r1 = memw(r29+#0) }\n{ nop }\n{ call h(r0,r1) }\n{ r31 = memw(r29+#8) }\n{ r29 = add(r29,#16) }\n{ jumpr r31 }\nsolution 143\n0 1 16 17 18 19 20 21 22 23 24 25 26 27 31 2\n2 36 2 3 37 0 0 0 0 0 0 0 0 0 0 0\n0 0 0 0 0 0 0 0 0 0 0 0 0 0 0 0\n0 0 0 0 0 0 0 0 0 2 4 38 1 1 3 4\n1 0 3 5 1 1 7 2 2 1 9 3 8 1 31 10\n2 0 0 0 0 0 0 0 0 0 0 0 0 0 0 0\n0 0 0 0 0 0 0 0 0 0 0 0 0 0 0 0\n0 0 0 0 0 0 0 0 0 0 0 0 0 0 0 0\n0 0 0 0 0 0 0 0 0 0 0 0 0 11 1\ntree 5\nB 141 3\nO\nB 70 1\nO\nO\nend\n?read:bad 2\
|unison 1\nfunction x\nmodel regs all slots 3 nodes 6\nanswer infeasible\ncost 10\nbound 1\nlisting 12\nframe 16\nblock e\n{ r29 = add(r29,#-16) }\n{ memw(r29+#0) = r0 }\n{ memw(r29+#4) = r1 }\n{ memw(r29+#8) = r31; r0 = memw(r29+#4) }\n{ r1 = memw(r29+#0) }\n{ nop }\n{ call h(r0,r1) }\n{ r31 = memw(r29+#8) }\n{ r29 = add(r29,#16) }\n{ jumpr r31 }\nsolution 143\n0 1 16 17 18 19 20 21 22 23 24 25 26 27 31 2\n2 36 2 3 37 0 0 0 0 0 0 0 0 0 0 0\n0 0 0 0 0 0 0 0 0 0 0 0 0 0 0 0\n0 0 0 0 0 0 0 0 0 2 4 38 1 1 3 4\n1 0 3 5 1 1 7 2 2 1 9 3 8 1 31 10\n2 0 0 0 0 0 0 0 0 0 0 0 0 0 0 0\n0 0 0 0 0 0 0 0 0 0 0 0 0 0 0 0\n0 0 0 0 0 0 0 0 0 0 0 0 0 0 0 0\n0 0 0 0 0 0 0 0 0 0 0 0 0 11 1\ntree 5\nB 141 3\nO\nB 70 1\nO\nO\nend\n?read:bad 5\
|unison 1\nfunction x\nmodel regs all slots 3 nodes 6\nanswer code\ncost 10\nbound 1\nlisting 12\nframe 16\nblock e\n{ r29 = add(r29,#-16) }\n{ memw(r29+#0) = r0 }\n{ memw(r29+#4) = r1 }\n{ memw(r29+#8) = r31; r0 = memw(r29+#4) }\n{ r1 = memw(r29+#0) }\n{ nop }\n{ call h(r0,r1) }\n{ r31 = memw(r29+#8) }\n{ r29 = add(r29,#16) }\n{ jumpr r31 }\nsolution 143\n0 1 16 17 18 19 20 21 22 23 24 25 26 27 31 2\n2 36 2 3 37 0 0 0 0 0 0 0 0 0 0 0\n0 0 0 0 0 0 0 0 0 0 0 0 0 0 0 0\n0 0 0 0 0 0 0 0 0 2 4 38 1 1 3 4\n1 0 3 5 1 1 7 2 2 1 9 3 8 1 31 10\n2 0 0 0 0 0 0 0 0 0 0 0 0 0 0 0\n0 0 0 0 0 0 0 0 0 0 0 0 0 0 0 0\n0 0 0 0 0 0 0 0 0 0 0 0 0 0 0 0\n0 0 0 0 0 0 0 0 0 0 0 0 0 11 1\ntree 5\nB 141 3\nB 4294967296 0\nB 70 1\nO\nO\nend\n?read:bad 32\
|unison 1\nfunction x\nmodel regs all slots 3 nodes 6\nanswer code\ncost 10\nbound 1\nlisting 12\nframe 16\nblock e\n{ r29 = add(r29,#-16) }\n{ memw(r29+#0) = r0 }\n{ memw(r29+#4) = r1 }\n{ memw(r29+#8) = r31; r0 = memw(r29+#4) }\n{ r1 = memw(r29+#0) }\n{ nop }\n{ call h(r0,r1) }\n{ r31 = memw(r29+#8) }\n{ r29 = add(r29,#16) }\n{ jumpr r31 }\nsolution 143\n0 1 16 17 18 19 20 21 22 23 24 25 26 27 31 2\n2 36 2 3 37 0 0 0 0 0 0 0 0 0 0 0\n0 0 0 0 0 0 0 0 0 0 0 0 0 0 0 0\n0 0 0 0 0 0 0 0 0 2 4 38 1 1 3 4\n1 0 3 5 1 1 7 2 2 1 9 3 8 1 31 10\n2 0 0 0 0 0 0 0 0 0 0 0 0 0 0 0\n0 0 0 0 0 0 0 0 0 0 0 0 0 0 0 0\n0 0 0 0 0 0 0 0 0 0 0 0 0 0 0 0\n0 0 0 0 0 0 0 0 0 0 0 0 0 11 1\ntree 5\nB 141 3\nO\nB 70 1\nO\nO\nEnd\n?read:bad 36\
|unison 1\nfunction dot\nmodel regs all slots 12 nodes 7\nanswer code\ncost 2806\nbound 502\nlisting 39\nframe 32\nblock entry\n{ r28 = r0; r29 = add(r29,#-32) }\n{ memw(r29+#4) = r1; r0 = #0 }\n{ memw(r29+#8) = r2 }\n{ memw(r29+#12) = r0 }\nblock loop\n{ r0 = memw(r28+#0) }\n{ nop }\n{ memw(r29+#16) = r0; r0 = memw(r29+#4) }\n{ nop }\n{ r0 = memw(r0+#0) }\n{ nop }\n{ memw(r29+#20) = r0; r0 = memw(r29+#16) }\n{ r1 = memw(r29+#20) }\n{ nop }\n{ r2 = mpyi(r0,r1); r0 = memw(r29+#12) }\n{ nop }\n{ r0 = add(r0,r2) }\n{ memw(r29+#12) = r0; r28 = add(r28,#4); r0 = memw(r29+#4) }\n{ nop }\n{ r0 = add(r0,#4) }\n{ memw(r29+#4) = r0; r0 = memw(r29+#8) }\n{ nop }\n{ r0 = add(r0,#-1) }\n{ memw(r29+#8) = r0 }\n{ r0 = memw(r29+#8) }\n{ nop }\n{ p0 = cmp.gt(r0,#0) }\n{ r0 = p0 }\n{ memw(r29+#28) = r0 }\n{ r0 = memw(r29+#28) }\n{ nop }\n{ p0 = r0 }\n{ if (p0) jump loop }\nblock exit\n{ r29 = add(r29,#32); r0 = memw(r29+#12) }\n{ jumpr r31 }\nsolution 455\n0 1 2 16 17 18 19 20 21 22 23 24 25 26 27 31\n1 1 28 2 2 37 2 3 38 0 0 0 0 0 0 0\n0 0 0 0 0 0 0 0 0 0 0 0 0 0 0 0\n0 0 0 0 0 0 0 0 0 0 0 0 0 0 0 0\n1 1 2 0 2 4 39 0 0 0 0 0 0 0 0 0\n0 0 0 0 0 0 0 0 0 0 0 0 0 0 0 0\n0 0 0 0 0 0 0 0 0 0 0 0 0 0 0 0\n0 0 0 0 0 0 0 0 0 0 0 0 0 0 0 0\n0 0 0 0 0 0 0 0 0 0 0 1 1 1 1 0\n0 0 0 0 0 0 0 0 0 0 0 0 5 28 37 38\n39 16 17 18 19 20 21 22 23 24 25 26 27 31 0 0\n0 0 0 0 0 0 0 0 0 0 0 0 0 0 1 0\n0 2 3 40 3 3 0 0 5 2 0 2 7 41 3 7\n1 0 3 8 1 1 10 2 2 2 0 0 0 3 10 0\n0 0 0 0 0 12 2 0 0 2 13 39 0 0 0 0\n13 0 28 0 0 0 3 13 0 0 15 3 0 2 16 37\n3 16 0 0 18 2 0 2 19 38 3 20 1 0 22 2\n32 4 23 0 2 24 1 43 3 25 2 0 5 27 3 32\n28 4 0 0 0 0 0 0 0 0 0 0 0 0 0 0\n0 0 0 1 1 1 0 0 0 0 0 0 0 0 0 0\n0 0 0 29 39 16 17 18 19 20 21 22 23 24 25 26\n27 31 0 0 0 0 0 0 0 0 0 0 0 0 0 0\n0 0 0 0 0 0 0 0 0 0 0 0 0 0 0 0\n0 0 0 0 0 0 0 0 0 0 0 0 1 1 0 0\n0 0 2 0 3 1 0 0 0 0 0 0 0 0 0 0\n0 0 0 0 0 0 0 0 0 0 0 0 0 0 0 0\n0 0 0 0 0 0 0 0 0 0 0 0 0 0 0 0\n0 0 0 0 0 0 0 0 2 0 0 0 0 0 0 0\n0 0 0 0 0 3 1\ntree 7\nB 415 3\nO\nB 229 65\nB 240 4\nO\nO\nC\nend\n?read:bad 46\
|unison 1\nfunction dot\nmodel regs all slots 12 nodes 7\nanswer code\ncost 2806\nbound 502\nlisting 38\nframe 32\nblock entry\n{ r28 = r0; r29 = add(r29,#-32) }\n{ memw(r29+#4) = r1; r0 = #0 }\n{ memw(r29+#8) = r2 }\n{ memw(r29+#12) = r0 }\nblock loop\n{ r0 = memw(r28+#0) }\n{ nop }\n{ memw(r29+#16) = r0; r0 = memw(r29+#4) }\n{ nop }\n{ r0 = memw(r0+#0) }\n{ nop }\n{ memw(r29+#20) = r0; r0 = memw(r29+#16) }\n{ r1 = memw(r29+#20) }\n{ nop }\n{ r2 = mpyi(r0,r1); r0 = memw(r29+#12) }\n{ nop }\n{ r0 = add(r0,r2) }\n{ memw(r29+#12) = r0; r28 = add(r28,#4); r0 = memw(r29+#4) }\n{ nop }\n{ r0 = add(r0,#4) }\n{ memw(r29+#4) = r0; r0 = memw(r29+#8) }\n{ nop }\n{ r0 = add(r0,#-1) }\n{ memw(r29+#8) = r0 }\n{ r0 = memw(r29+#8) }\n{ nop }\n{ p0 = cmp.gt(r0,#0) }\n{ r0 = p0 }\n{ memw(r29+#28) = r0 }\n{ r0 = memw(r29+#28) }\n{ nop }\n{ p0 = r0 }\n{ if (p0) jump loop }\nblock exit\n{ r29 = add(r29,#32); r0 = memw(r29+#12) }\n{ jumpr r31 }\nsolution 455\n0 1 2 16 17 18 19 20 21 22 23 24 25 26 27 31\n1 1 28 2 2 37 2 3 38 0 0 0 0 0 0 0\n0 0 0 0 0 0 0 0 0 0 0 0 0 0 0 0\n0 0 0 0 0 0 0 0 0 0 0 0 0 0 0 0\n1 1 2 0 2 4 39 0 0 0 0 0 0 0 0 0\n0 0 0 0 0 0 0 0 0 0 0 0 0 0 0 0\n0 0 0 0 0 0 0 0 0 0 0 0 0 0 0 0\n0 0 0 0 0 0 0 0 0 0 0 0 0 0 0 0\n0 0 0 0 0 0 0 0 0 0 0 1 1 1 1 0\n0 0 0 0 0 0 0 0 0 0 0 0 5 28 37 38\n39 16 17 18 19 20 21 22 23 24 25 26 27 31 0 0\n0 0 0 0 0 0 0 0 0 0 0 0 0 0 1 0\n0 2 3 40 3 3 0 0 5 2 0 2 7 41 3 7\n1 0 3 8 1 1 10 2 2 2 0 0 0 3 10 0\n0 0 0 0 0 12 2 0 0 2 13 39 0 0 0 0\n13 0 28 0 0 0 3 13 0 0 15 3 0 2 16 37\n3 16 0 0 18 2 0 2 19 38 3 20 1 0 22 2\n32 4 23 0 2 24 1 43 3 25 2 0 5 27 3 32\n28 4 0 0 0 0 0 0 0 0 0 0 0 0 0 0\n0 0 0 1 1 1 0 0 0 0 0 0 0 0 0 0\n0 0 0 29 39 16 17 18 19 20 21 22 23 24 25 26\n27 31 0 0 0 0 0 0 0 0 0 0 0 0 0 0\n27 31 0 0 0 0 0 0 0 0 0 0 0 0 0 0\n0 0 0 0 0 0 0 0 0 0 0 0 0 0 0 0\n0 0 0 0 0 0 0 0 0 0 0 0 1 1 0 0\n0 0 2 0 3 1 0 0 0 0 0 0 0 0 0 0\n0 0 0 0 0 0 0 0 0 0 0 0 0 0 0 0\n0 0 0 0 0 0 0 0 0 0 0 0 0 0 0 0\n0 0 0 0 0 0 0 0 2 0 0 0 0 0 0 0\n0 0 0 0 0 3 1\ntree 7\nB 415 3\nO\nB 229 65\nB 240 4\nO\nO\nC\nend\n?read:bad 75\
|unison 1\nfunction dot\nmodel regs all slots 12 nodes 7\nanswer code\ncost 2806\nbound 502\nlisting 38\nframe 32\nblock entry\n{ r28 = r0; r29 = add(r29,#-32) }\n{ memw(r29+#4) = r1; r0 = #0 }\n{ memw(r29+#8) = r2 }\n{ memw(r29+#12) = r0 }\nblock loop\n{ r0 = memw(r28+#0) }\n{ nop }\n{ memw(r29+#16) = r0; r0 = memw(r29+#4) }\n{ nop }\n{ r0 = memw(r0+#0) }\n{ nop }\n{ memw(r29+#20) = r0; r0 = memw(r29+#16) }\n{ r1 = memw(r29+#20) }\n{ nop }\n{ r2 = mpyi(r0,r1); r0 = memw(r29+#12) }\n{ nop }\n{ r0 = add(r0,r2) }\n{ memw(r29+#12) = r0; r28 = add(r28,#4); r0 = memw(r29+#4) }\n{ nop }\n{ r0 = add(r0,#4) }\n{ memw(r29+#4) = r0; r0 = memw(r29+#8) }\n{ nop }\n{ r0 = add(r0,#-1) }\n{ memw(r29+#8) = r0 }\n{ r0 = memw(r29+#8) }\n{ nop }\n{ p0 = cmp.gt(r0,#0) }\n{ r0 = p0 }\n{ memw(r29+#28) = r0 }\n{ r0 = memw(r29+#28) }\n{ nop }\n{ p0 = r0 }\n{ if (p0) jump loop }\nblock exit\n{ r29 = add(r29,#32); r0 = memw(r29+#12) }\n{ jumpr r31 }\nsolution 455\n0 1 2 16 17 18 19 20 21 22 23 24 25 26 27 31\n1 1 28 2 2 37 2 3 38 0 0 0 0 0 0 0\n0 0 0 0 0 0 0 0 0 0 0 0 0 0 0 0\n0 0 0 0 0 0 0 0 0 0 0 0 0 0 0 0\n1 1 2 0 2 4 39 0 0 0 0 0 0 0 0 0\n0 0 0 0 0 0 0 0 0 0 0 0 0 0 0 0\n0 0 0 0 0 0 0 0 0 0 0 0 0 0 0 0\n0 0 0 0 0 0 0 0 0 0 0 0 0 0 0 0\n0 0 0 0 0 0 0 0 0 0 0 1 1 1 1 0\n0 0 0 0 0 0 0 0 0 0 0 0 5 28 37 38\n39 16 17 18 19 20 21 22 23 24 25 26 27 31 0 0\n0 0 0 0 0 0 0 0 0 0 0 0 0 0 1 0\n0 2 3 40 3 3 0 0 5 2 0 2 7 41 3 7\n1 0 3 8 1 1 10 2 2 2 0 0 0 3 10 0\n0 0 0 0 0 12 2 0 0 2 13 39 0 0 0 0\n13 0 28 0 0 0 3 13 0 0 15 3 0 2 16 37\n3 16 0 0 18 2 0 2 19 38 3 20 1 0 22 2\n32 4 23 0 2 24 1 43 3 25 2 0 5 27 3 32\n28 4 0 0 0 0 0 0 0 0 0 0 0 0 0 0\n0 0 0 1 1 1 0 0 0 0 0 0 0 0 0 0\n0 0 0 29 39 16 17 18 19 20 21 22 23 24 25 26\n27 31 0 0 0 0 0 0 0 0 0 0 0 0 0 0\n0 0 0 0 0 0 0 0 0 0 0 0 0 0 0 0\n0 0 0 0 0 0 0 0 0 0 0 0 1 1 0 0\n0 0 2 0 3 1 0 0 0 0 0 0 0 0 0 0\n0 0 0 0 0 0 0 0 0 0 0 0 0 0 0 0\n0 0 0 0 0 0 0 0 0 0 0 0 0 0 0 0\n0 0 0 0 0 0 0 0 2 0 0 0 0 0 0 0\n0 0 0 0 0 3 1\ntree 7\nB 415 3\nO\nB 229 65\nB 240 4\nO\nO\nC\nend\nend\n?read:bad 85\
|unison 1\nfunction dot\nmodel regs all slots 12 nodes 7\nanswer code\ncost 2806\nbound 502\nlisting 38\nframe 32\nblock entry\n{ r28 = r0; r29 = add(r29,#-32) }\n{ memw(r29+#4) = r1; r0 = #0 }\n{ memw(r29+#8) = r2 }\n{ memw(r29+#12) = r0 }\nblock loop\n{ r0 = memw(r28+#0) }\n{ nop }\n{ memw(r29+#16) = r0; r0 = memw(r29+#4) }\n{ nop }\n{ r0 = memw(r0+#0) }\n{ nop }\n{ memw(r29+#20) = r0; r0 = memw(r29+#16) }\n{ r1 = memw(r29+#20) }\n{ nop }\n{ r2 = mpyi(r0,r1); r0 = memw(r29+#12) }\n{ nop }\n{ r0 = add(r0,r2) }\n{ memw(r29+#12) = r0; r28 = add(r28,#4); r0 = memw(r29+#4) }\n{ nop }\n{ r0 = add(r0,#4) }\n{ memw(r29+#4) = r0; r0 = memw(r29+#8) }\n{ nop }\n{ r0 = add(r0,#-1) }\n{ memw(r29+#8) = r0 }\n{ r0 = memw(r29+#8) }\n{ nop }\n{ p0 = cmp.gt(r0,#0) }\n{ r0 = p0 }\n{ memw(r29+#28) = r0 }\n{ r0 = memw(r29+#28) }\n{ nop }\n{ p0 = r0 }\n{ if (p0) jump loop }\nblock exit\n{ r29 = add(r29,#32); r0 = memw(r29+#12) }\n{ jumpr r31 }\nsolution 455\n0 1 2 16 17 18 19 20 21 22 23 24 25 26 27 31\n1 1 28 2 2 37 2 3 38 0 0 0 0 0 0 0\n0 0 0 0 0 0 0 0 0 0 0 0 0 0 0 0\n0 0 0 0 0 0 0 0 0 0 0 0 0 0 0 0\n1 1 2 0 2 4 39 0 0 0 0 0 0 0 0 0\n0 0 0 0 0 0 0 0 0 0 0 0 0 0 0 0\n0 0 0 0 0 0 0 0 0 0 0 0 0 0 0 0\n0 0 0 0 0 0 0 0 0 0 0 0 0 0 0 0\n0 0 0 0 0 0 0 0 0 0 0 1 1 1 1 0\n0 0 0 0 0 0 0 0 0 0 0 0 5 28 37 38\n39 16 17 18 19 20 21 22 23 24 25 26 27 31 0 0\n0 0 0 0 0 0 0 0 0 0 0 0 0 0 1 0\n0 2 3 40 3 3 0 0 5 2 0 2 7 41 3 7\n1 0 3 8 1 1 10 2 2 2 0 0 0 3 10 0\n0 0 0 0 0 12 2 0 0 2 13 39 0 0 0 0\n13 0 28 0 0 0 3 13 0 0 15 3 0 2 16 37\n3 16 0 0 18 2 0 2 19 38 3 20 1 0 22 2\n32 4 23 0 2 24 1 43 3 25 2 0 5 27 3 32\n28 4 0 0 0 0 0 0 0 0 0 0 0 0 0 0\n0 0 0 1 1 1 0 0 0 0 0 0 0 0 0 0\n0 0 0 29 39 16 17 18 19 20 21 22 23 24 25 26\n27 31 0 0 0 0 0 0 0 0 0 0 0 0 0 0\n0 0 0 0 0 0 0 0 0 0 0 0 0 0 0 0\n0 0 0 0 0 0 0 0 0 0 0 0 1 1 0 0\n0 0 2 0 3 1 0 0 0 0 0 0 0 0 0 0\n0 0 0 0 0 0 0 0 0 0 0 0 0 0 0 0\n0 0 0 0 0 0 0 0 0 0 0 0 0 0 0 0\n0 0 0 0 0 0 0 0 2 0 0 0 0 0 0 0\n0 0 0 0 0 3 1\ntree 7\nB 415 3\nO\nC\nB 229 65\nB 240 4\nO\nO\nC\nend\n?read:bad 84\
|unison 1\nfunction dot\nmodel regs 30 slots 64 nodes 7\nanswer code\ncost 2806\nbound 502\nlisting 38\nframe 32\nblock entry\n{ r28 = r0; r29 = add(r29,#-32) }\n{ memw(r29+#4) = r1; r0 = #0 }\n{ memw(r29+#8) = r2 }\n{ memw(r29+#12) = r0 }\nblock loop\n{ r0 = memw(r28+#0) }\n{ nop }\n{ memw(r29+#16) = r0; r0 = memw(r29+#4) }\n{ nop }\n{ r0 = memw(r0+#0) }\n{ nop }\n{ memw(r29+#20) = r0; r0 = memw(r29+#16) }\n{ r1 = memw(r29+#20) }\n{ nop }\n{ r2 = mpyi(r0,r1); r0 = memw(r29+#12) }\n{ nop }\n{ r0 = add(r0,r2) }\n{ memw(r29+#12) = r0; r28 = add(r28,#4); r0 = memw(r29+#4) }\n{ nop }\n{ r0 = add(r0,#4) }\n{ memw(r29+#4) = r0; r0 = memw(r29+#8) }\n{ nop }\n{ r0 = add(r0,#-1) }\n{ memw(r29+#8) = r0 }\n{ r0 = memw(r29+#8) }\n{ nop }\n{ p0 = cmp.gt(r0,#0) }\n{ r0 = p0 }\n{ memw(r29+#28) = r0 }\n{ r0 = memw(r29+#28) }\n{ nop }\n{ p0 = r0 }\n{ if (p0) jump loop }\nblock exit\n{ r29 = add(r29,#32); r0 = memw(r29+#12) }\n{ jumpr r31 }\nsolution 455\n0 1 2 16 17 18 19 20 21 22 23 24 25 26 27 31\n1 1 28 2 2 37 2 3 38 0 0 0 0 0 0 0\n0 0 0 0 0 0 0 0 0 0 0 0 0 0 0 0\n0 0 0 0 0 0 0 0 0 0 0 0 0 0 0 0\n1 1 2 0 2 4 39 0 0 0 0 0 0 0 0 0\n0 0 0 0 0 0 0 0 0 0 0 0 0 0 0 0\n0 0 0 0 0 0 0 0 0 0 0 0 0 0 0 0\n0 0 0 0 0 0 0 0 0 0 0 0 0 0 0 0\n0 0 0 0 0 0 0 0 0 0 0 1 1 1 1 0\n0 0 0 0 0 0 0 0 0 0 0 0 5 28 37 38\n39 16 17 18 19 20 21 22 23 24 25 26 27 31 0 0\n0 0 0 0 0 0 0 0 0 0 0 0 0 0 1 0\n0 2 3 40 3 3 0 0 5 2 0 2 7 41 3 7\n1 0 3 8 1 1 10 2 2 2 0 0 0 3 10 0\n0 0 0 0 0 12 2 0 0 2 13 39 0 0 0 0\n13 0 28 0 0 0 3 13 0 0 15 3 0 2 16 37\n3 16 0 0 18 2 0 2 19 38 3 20 1 0 22 2\n32 4 23 0 2 24 1 43 3 25 2 0 5 27 3 32\n28 4 0 0 0 0 0 0 0 0 0 0 0 0 0 0\n0 0 0 1 1 1 0 0 0 0 0 0 0 0 0 0\n0 0 0 29 39 16 17 18 19 20 21 22 23 24 25 26\n27 31 0 0 0 0 0 0 0 0 0 0 0 0 0 0\n0 0 0 0 0 0 0 0 0 0 0 0 0 0 0 0\n0 0 0 0 0 0 0 0 0 0 0 0 1 1 0 0\n0 0 2 0 3 1 0 0 0 0 0 0 0 0 0 0\n0 0 0 0 0 0 0 0 0 0 0 0 0 0 0 0\n0 0 0 0 0 0 0 0 0 0 0 0 0 0 0 0\n0 0 0 0 0 0 0 0 2 0 0 0 0 0 0 0\n0 0 0 0 0 3 1\ntree 7\nB 415 3\nO\nB 229 65\nB 240 4\nO\nO\nC\nend\n?read:bad 3\
|unison 1\nfunction dot\nmodel regs all slots 12 nodes 7\nanswer code\ncost 2806\nbound 502\nlisting 38\nframe 32\nblock entry\n{ r28 = r0; r29 = add(r29,#-32) }\n{ memw(r29+#4) = r1; r0 = #0 }\n{ memw(r29+#8) = r2 }\n{ memw(r29+#12) = r0 }\nblock loop\n{ r0 = memw(r28+#0) }\n{ nop }\n{ memw(r29+#16) = r0; r0 = memw(r29+#4) }\n{ nop }\n{ r0 = memw(r0+#0) }\n{ nop }\n{ memw(r29+#20) = r0; r0 = memw(r29+#16) }\n{ r1 = memw(r29+#20) }\n{ nop }\n{ r2 = mpyi(r0,r1); r0 = memw(r29+#12) }\n{ nop }\n{ r0 = add(r0,r2) }\n{ memw(r29+#12) = r0; r28 = add(r28,#4); r0 = memw(r29+#4) }\n{ nop }\n{ r0 = add(r0,#4) }\n{ memw(r29+#4) = r0; r0 = memw(r29+#8) }\n{ nop }\n{ r0 = add(r0,#-1) }\n{ memw(r29+#8) = r0 }\n{ r0 = memw(r29+#8) }\n{ nop }\n{ p0 = cmp.gt(r0,#0) }\n{ r0 = p0 }\n{ memw(r29+#28) = r0 }\n{ r0 = memw(r29+#28) }\n{ nop }\n{ p0 = r0 }\n{ if (p0) jump loop }\nblock exit\n{ r29 = add(r29,#32); r0 = memw(r29+#12) }\n{ jumpr r31 }\nsolution 455\n0 1 2 16 17 18 19 20 21 22 23 24 25 26 27 31\n1 1 28 2 2 37 2 3 38 0 0 0 0 0 0 0\n0 0 0 0 0 0 0 0 0 0 0 0 0 0 0 0\n0 0 0 0 0 0 0 0 0 0 0 0 0 0 0 0\n1 1 2 0 2 4 39 0 0 0 0 0 0 0 0 0\n0 0 0 0 0 0 0 0 0 0 0 0 0 0 0 0\n0 0 0 0 0 0 0 0 0 0 0 0 0 0 0 0\n0 0 0 0 0 0 0 0 0 0 0 0 0 0 0 0\n0 0 0 0 0 0 0 0 0 0 0 1 1 1 1 0\n0 0 0 0 0 0 0 0 0 0 0 0 5 28 37 38\n39 16 17 18 19 20 21 22 23 24 25 26 27 31 0 0\n0 0 0 0 0 0 0 0 0 0 0 0 0 0 1 0\n0 2 3 40 3 3 0 0 5 2 0 2 7 41 3 7\n1 0 3 8 1 1 10 2 2 2 0 0 0 3 10 0\n0 0 0 0 0 12 2 0 0 2 13 39 0 0 0 0\n13 0 28 0 0 0 3 13 0 0 15 3 0 2 16 37\n3 16 0 0 18 2 0 2 19 38 3 20 1 0 22 2\n32 4 23 0 2 24 1 43 3 25 2 0 5 27 3 32\n28 4 0 0 0 0 0 0 0 0 0 0 0 0 0 0\n0 0 0 1 1 1 0 0 0 0 0 0 0 0 0 0\n0 0 0 29 39 16 17 18 19 20 21 22 23 24 25 26\n27 31 0 0 0 0 0 0 0 0 0 0 0 0 0 0\n0 0 0 0 0 0 0 0 0 0 0 0 0 0 0 0\n0 0 0 0 0 0 0 0 0 0 0 0 1 1 0 0\n0 0 2 0 3 1 0 0 0 0 0 0 0 0 0 0\n0 0 0 0 0 0 0 0 0 0 0 0 0 0 0 0\n0 0 0 0 0 0 0 0 0 0 0 0 0 0 0 0\n0 0 0 0 0 0 0 0 2 0 0 0 0 0 0 0\n0 0 0 0 0 3 1\ntree 7\nB 415 3\nO\nB 229 65\nB 240 4\n{ memw(r29+#16) = r0; r0 = memw(r29+#4) }\nO\nC\nend\n?read:bad 81\
|unison 1\nfunction e\nmodel regs 6 slots 2 nodes 5\nanswer code\ncost 12\nbound 2\nlisting 9\nframe 8\nblock a\n{ r29 = add(r29,#-8) }\n{ memw(r29+#0) = r31 }\nblock b\nblock c\n{ r31 = memw(r29+#0) }\n{ r29 = add(r29,#8) }\n{ jumpr r31 }\nsolution 269\n16 17 18 19 20 21 22 23 24 25 26 27 31 0 0 0\n0 0 0 0 0 0 0 0 0 0 0 0 0 0 0 0\n0 0 0 0 0 0 0 0 0 0 0 0 0 0 0 0\n0 2 2 36 1 1 0 0 0 0 0 0 0 0 0 0\n0 0 0 0 0 0 0 0 0 0 0 0 0 0 0 0\n0 0 0 0 0 0 0 0 0 0 0 0 0 0 0 0\n0 0 0 0 0 0 0 0 0 0 0 0 0 0 0 0\n0 0 0 0 0 0 1 3 16 17 18 19 20 21 22 23\n24 25 26 27 36 0 0 0 0 0 0 0 0 0 0 0\n0 0 1 16 17 18 19 20 21 22 23 24 25 26 27 36\n0 0 0 0 0 0 0 0 0 0 0 0 0 0 0 0\n0 0 0 0 0 0 0 0 0 0 0 0 0 0 0 0\n0 0 0 0 0 0 0 1 2 3 1 0 31 3 2 0\n0 0 0 0 0 0 0 0 0 0 0 0 0 0 0 0\n0 0 0 0 0 0 0 0 0 0 0 0 0 0 0 0\n0 0 0 0 0 0 0 0 0 0 0 0 0 0 0 0\n0 0 0 0 0 0 0 0 0 0 0 4 1\ntree 5\nB 119 30\nB 119 4\nO\nC\nC\nO\nend\n?read:bad 41\
|unison 9\nfunction e\nmodel regs 6 slots 2 nodes 5\nanswer code\ncost 12\nbound 2\nlisting 9\nframe 8\nblock a\n{ r29 = add(r29,#-8) }\n{ memw(r29+#0) = r31 }\nblock b\nblock c\n{ r31 = memw(r29+#0) }\n{ r29 = add(r29,#8) }\n{ jumpr r31 }\nsolution 269\n16 17 18 19 20 21 22 23 24 25 26 27 31 0 0 0\n0 0 0 0 0 0 0 0 0 0 0 0 0 0 0 0\n0 0 0 0 0 0 0 0 0 0 0 0 0 0 0 0\n0 2 2 36 1 1 0 0 0 0 0 0 0 0 0 0\n0 0 0 0 0 0 0 0 0 0 0 0 0 0 0 0\n0 0 0 0 0 0 0 0 0 0 0 0 0 0 0 0\n0 0 0 0 0 0 0 0 0 0 0 0 0 0 0 0\n0 0 0 0 0 0 1 3 16 17 18 19 20 21 22 23\n24 25 26 27 36 0 0 0 0 0 0 0 0 0 0 0\n0 0 1 16 17 18 19 20 21 22 23 24 25 26 27 36\n0 0 0 0 0 0 0 0 0 0 0 0 0 0 0 0\n0 0 0 0 0 0 0 0 0 0 0 0 0 0 0 0\n0 0 0 0 0 0 0 1 2 3 1 0 31 3 2 0\n0 0 0 0 0 0 0 0 0 0 0 0 0 0 0 0\n0 0 0 0 0 0 0 0 0 0 0 0 0 0 0 0\n0 0 0 0 0 0 0 0 0 0 0 0 0 0 0 0\n0 0 0 0 0 0 0 0 0 0 0 4 1\ntree 5\nB 119 30\nB 119 4\nO\nC\nC\nend\n?read:bad 1\
|unison 1\nfunction e\nmodel regs 6 slots 2 nodes 4294967296\nanswer code\ncost 12\nbound 2\nlisting 9\nframe 8\nblock a\n{ r29 = add(r29,#-8) }\n{ memw(r29+#0) = r31 }\nblock b\nblock c\n{ r31 = memw(r29+#0) }\n{ r29 = add(r29,#8) }\n{ jumpr r31 }\nsolution 269\n16 17 18 19 20 21 22 23 24 25 26 27 31 0 0 0\n0 0 0 0 0 0 0 0 0 0 0 0 0 0 0 0\n0 0 0 0 0 0 0 0 0 0 0 0 0 0 0 0\n0 2 2 36 1 1 0 0 0 0 0 0 0 0 0 0\n0 0 0 0 0 0 0 0 0 0 0 0 0 0 0 0\n0 0 0 0 0 0 0 0 0 0 0 0 0 0 0 0\n0 0 0 0 0 0 0 0 0 0 0 0 0 0 0 0\n0 0 0 0 0 0 1 3 16 17 18 19 20 21 22 23\n24 25 26 27 36 0 0 0 0 0 0 0 0 0 0 0\n0 0 1 16 17 18 19 20 21 22 23 24 25 26 27 36\n0 0 0 0 0 0 0 0 0 0 0 0 0 0 0 0\n0 0 0 0 0 0 0 0 0 0 0 0 0 0 0 0\n0 0 0 0 0 0 0 1 2 3 1 0 31 3 2 0\n0 0 0 0 0 0 0 0 0 0 0 0 0 0 0 0\n0 0 0 0 0 0 0 0 0 0 0 0 0 0 0 0\n0 0 0 0 0 0 0 0 0 0 0 0 0 0 0 0\n0 0 0 0 0 0 0 0 0 0 0 4 1\ntree 5\nB 119 30\nB 119 4\nO\nC\nC\nend\n?read:bad 3\
|unison 1\nfunction e\nmodel regs 6 slots 2 nodes 5\nanswer code\ncost 12\nbound 2\nlisting 9\nframe 16\nblock a\n{ r29 = add(r29,#-8) }\n{ memw(r29+#0) = r31 }\nblock b\nblock c\n{ r31 = memw(r29+#0) }\n{ r29 = add(r29,#8) }\n{ jumpr r31 }\nsolution 269\n16 17 18 19 20 21 22 23 24 25 26 27 31 0 0 0\n0 0 0 0 0 0 0 0 0 0 0 0 0 0 0 0\n0 0 0 0 0 0 0 0 0 0 0 0 0 0 0 0\n0 2 2 36 1 1 0 0 0 0 0 0 0 0 0 0\n0 0 0 0 0 0 0 0 0 0 0 0 0 0 0 0\n0 0 0 0 0 0 0 0 0 0 0 0 0 0 0 0\n0 0 0 0 0 0 0 0 0 0 0 0 0 0 0 0\n0 0 0 0 0 0 1 3 16 17 18 19 20 21 22 23\n24 25 26 27 36 0 0 0 0 0 0 0 0 0 0 0\n0 0 1 16 17 18 19 20 21 22 23 24 25 26 27 36\n0 0 0 0 0 0 0 0 0 0 0 0 0 0 0 0\n0 0 0 0 0 0 0 0 0 0 0 0 0 0 0 0\n0 0 0 0 0 0 0 1 2 3 1 0 31 3 2 0\n0 0 0 0 0 0 0 0 0 0 0 0 0 0 0 0\n0 0 0 0 0 0 0 0 0 0 0 0 0 0 0 0\n0 0 0 0 0 0 0 0 0 0 0 0 0 0 0 0\n0 0 0 0 0 0 0 0 0 0 0 4 1\ntree 5\nB 119 30\nB 119 4\nO\nC\nC\nend\n?read:bad 10\
|unison 1\nfunction e\nmodel regs 6 slots 2 nodes 5\nanswer code\ncost 12\nbound 2\nlisting 9\nframe 8\nblock a\n{ r29 = add(r29,#-8) }\n{ memw(r29+#0) = r31 }\nblock b\nblock c\n{ r31 = memw(r29+#0) }\n{ r29 = add(r29,#8) }\n{ jumpr r31 }\nsolution 269\n16 17 18 19 20 21 22 23 24 25 26 27 31 0 0 0\n0 0 0 0 0 0 0 0 0 0 0 0 0 0 0 0\n0 0 0 0 0 0 0 0 0 0 0 0 0 0 0 0\n0 2 2 36 1 1 0 0 0 0 0 0 0 0 0 0\n0 0 0 0 0 0 0 0 0 0 0 0 0 0 0 0\n0 0 0 0 0 0 0 0 0 0 0 0 0 0 0 0\n0 0 0 0 0 0 0 0 0 0 0 0 0 0 0 0\n0 0 0 0 0 0 1 3 16 17 18 19 20 21 22 23\n24 25 26 27 36 0 0 0 0 0 0 0 0 0 0 0\n0 0 1 16 17 18 19 20 21 22 23 24 25 26 27 36\n0 0 0 0 0 0 0 0 0 0 0 0 0 0 0 0\n0 0 0 0 0 0 0 0 0 0 0 0 0 0 0 0\n0 0 0 0 0 0 0 1 2 3 1 0 31 3 2 0\n0  0 0 0 0 0 0 0 0 0 0 0 0 0 0 0\n0 0 0 0 0 0 0 0 0 0 0 0 0 0 0 0\n0 0 0 0 0 0 0 0 0 0 0 0 0 0 0 0\n0 0 0 0 0 0 0 0 0 0 0 4 1\ntree 5\nB 119 30\nB 119 4\nO\nC\nC\nend\n?read:bad 31\
|unison 1\nfunction e\nmodel regs 6 slots 2 nodes 5\nanswer code\ncost 12\nbound 2\nlisting 9\nframe 8\nblock a\n{ r29 = add(r29,#-8) }\n{ memw(r29+#0) = r31 }\nblock b\nblock c\n{ r31 = memw(r29+#0) }\n{ r29 = add(r29,#8) }\n{ jumpr r31 }\nsolution 269\n16 17 18 19 20 21 22 23 24 25 26 27 31 0 0 0\n0 0 0 0 0 0 0 0 0 0 0 0 0 0 0 0\n0 0 0 0 0 0 0 0 0 0 0 0 0 0 0 0\n0 2 2 36 1 1 0 0 0 0 0 0 0 0 0 0\n0 0 0 0 0 0 0 0 0 0 0 0 0 0 0 0\n0 0 0 0 0 0 0 0 0 0 0 0 0 0 0 0\n0 0 0 0 0 0 0 0 0 0 0 0 0 0 0 0\n0 0 0 0 0 0 1 3 16 17 18 19 20 21 22 23\n24 25 26 27 36 0 0 0 0 0 0 0 0 0 0 0\n0 0 1 16 17 18 19 20 21 22 23 24 25 26 27 36\n0 0 0 0 0 0 0 0 0 0 0 0 0 0 0 0\n0 0 0 0 0 0 0 0 0 0 0 0 0 0 0 0\n0 0 0 0 0 0 0 1 2 3 1 0 31 3 2 0\n0 0 0 0 0 0 0 0 0 0 0 0 0 0 0 0\n0 0 0 0 0 0 0 0 0 0 0 0 0 0 0 0\n0 0 0 0 0 0 0 0 0 0 0 0 0 0 0 0\n0 0 0 0 0 0 0 0 0 0 0 4 1\ntree 5\nB 119 30\nB 119 4\nP -\nC\nC\nend\n?read:bad 38\
|unison 1\nfunction f\nmodel regs all slots 64 nodes 2000\nanswer code\ncost 1\nbound 1\nlisting 3\nframe 0\nblock e\n{ jumpr r31 }\nsolution 124\n16 17 18 19 20 21 22 23 24 25 26 27 31 0 0 0\n0 0 0 0 0 0 0 0 0 0 0 0 0 0 0 0\n0 0 0 0 0 0 0 0 0 0 0 0 0 0 0 0\n0 0 0 0 0 0 0 0 0 0 0 0 1 0 0 0\n0 0 0 0 0 0 0 0 0 0 0 0 0 0 0 0\n0 0 0 0 0 0 0 0 0 0 0 0 0 0 0 0\n0 0 0 0 0 0 0 0 0 0 0 0 0 0 0 0\n0 0 0 0 0 0 0 0 0 0 2 0\ntree 1\nC\nend\n\n?read:bad 23\
|unison 1\nfunction f\nmodel regs all slots 64 nodes 2000\nanswer code\ncost 1\nbound 1\nlisting 3\nframe 0\nblock e\n{ jumpr r31 }\nsolution 124\n16 17 18 19 20 21 22 23 24 25 26 27 31 0 0 0\n0 0 0 0 0 0 0 0 0 0 0 0 0 0 0 0\n0 0 0 0 0 0 0 0 0 0 0 0 0 0 0 0\n0 0 0 0 0 0 0 0 0 0 0 0 1 0 0 0\n0 0 0 0 0 0 0 0 0 0 0 0 0 0 0 0\n0 0 0 0 0 0 0 0 0 0 0 0 0 0 0 0\n0 0 0 0 0 0 0 0 0 0 0 0 0 0 0 0\n0 0 0 0 0 0 0 0 0 0 2 0\ntree 1\nC\nend\nend\n?read:bad 23\
|unison 1\nfunction f\nmodel regs all slots 64 nodes 2000\nanswer code\ncost 1\nbound 01\nlisting 3\nframe 0\nblock e\n{ jumpr r31 }\nsolution 124\n16 17 18 19 20 21 22 23 24 25 26 27 31 0 0 0\n0 0 0 0 0 0 0 0 0 0 0 0 0 0 0 0\n0 0 0 0 0 0 0 0 0 0 0 0 0 0 0 0\n0 0 0 0 0 0 0 0 0 0 0 0 1 0 0 0\n0 0 0 0 0 0 0 0 0 0 0 0 0 0 0 0\n0 0 0 0 0 0 0 0 0 0 0 0 0 0 0 0\n0 0 0 0 0 0 0 0 0 0 0 0 0 0 0 0\n0 0 0 0 0 0 0 0 0 0 2 0\ntree 1\nC\nend\n?read:bad 6\
|unison 1\nfunction f\nmodel regs all slots 65 nodes 2000\nanswer code\ncost 1\nbound 1\nlisting 3\nframe 0\nblock e\n{ jumpr r31 }\nsolution 124\n16 17 18 19 20 21 22 23 24 25 26 27 31 0 0 0\n0 0 0 0 0 0 0 0 0 0 0 0 0 0 0 0\n0 0 0 0 0 0 0 0 0 0 0 0 0 0 0 0\n0 0 0 0 0 0 0 0 0 0 0 0 1 0 0 0\n0 0 0 0 0 0 0 0 0 0 0 0 0 0 0 0\n0 0 0 0 0 0 0 0 0 0 0 0 0 0 0 0\n0 0 0 0 0 0 0 0 0 0 0 0 0 0 0 0\n0 0 0 0 0 0 0 0 0 0 2 0\ntree 1\nC\nend\n?read:bad 3\
|unison 1\nfunction f\nmodel regs all slots 64 nodes 200001\nanswer code\ncost 1\nbound 1\nlisting 3\nframe 0\nblock e\n{ jumpr r31 }\nsolution 124\n16 17 18 19 20 21 22 23 24 25 26 27 31 0 0 0\n0 0 0 0 0 0 0 0 0 0 0 0 0 0 0 0\n0 0 0 0 0 0 0 0 0 0 0 0 0 0 0 0\n0 0 0 0 0 0 0 0 0 0 0 0 1 0 0 0\n0 0 0 0 0 0 0 0 0 0 0 0 0 0 0 0\n0 0 0 0 0 0 0 0 0 0 0 0 0 0 0 0\n0 0 0 0 0 0 0 0 0 0 0 0 0 0 0 0\n0 0 0 0 0 0 0 0 0 0 2 0\ntree 1\nC\nend\n?read:bad 3\
|unison 1\nfunction f\nmodel regs all slots 64 nodes 2000\nanswer code\ncost 1\nbound 1\nlisting 3\nframe 0\nblock e\n{ jumpr r31 }\nsolution 124\n16 17 18 19 20 21 22 23 24 25 26 27 31 0 0 0\n0 0 0 0 0 0 0 0 0 0 0 0 0 0 0 0\n0 0 0 0 0 0 0 0 0 0 0 0 0 0 0 0\n0 0 0 0 0 0 0 0 0 0 0 0 1 0 0 0\n0 0 0 0 0 0 0 0 0 0 0 0 0 0 0 0\n0 0 0 0 0 0 0 0 0 0 0 0 0 0 0 0\n0 0 0 0 0 0 0 0 0 0 0 0 0 0 0 0\n0 0 0 0 0 0 0 0 0 0 2 0\ntree 0\nend\n?read:bad 20\
|unison 1\nfunction f\nmodel regs all slots 64 nodes 2000\nanswer code\ncost 1\nbound 1\nlisting 1\nframe 0\nblock e\n{ jumpr r31 }\nsolution 124\n16 17 18 19 20 21 22 23 24 25 26 27 31 0 0 0\n0 0 0 0 0 0 0 0 0 0 0 0 0 0 0 0\n0 0 0 0 0 0 0 0 0 0 0 0 0 0 0 0\n0 0 0 0 0 0 0 0 0 0 0 0 1 0 0 0\n0 0 0 0 0 0 0 0 0 0 0 0 0 0 0 0\n0 0 0 0 0 0 0 0 0 0 0 0 0 0 0 0\n0 0 0 0 0 0 0 0 0 0 0 0 0 0 0 0\n0 0 0 0 0 0 0 0 0 0 2 0\ntree 1\nC\nend\n?read:bad 9\
|unison 1\nfunction f\nmodel regs all slots 64 nodes 2000\nanswer code\ncost 1\nbound 1\nlisting 0\nframe 0\nblock e\n{ jumpr r31 }\nsolution 124\n16 17 18 19 20 21 22 23 24 25 26 27 31 0 0 0\n0 0 0 0 0 0 0 0 0 0 0 0 0 0 0 0\n0 0 0 0 0 0 0 0 0 0 0 0 0 0 0 0\n0 0 0 0 0 0 0 0 0 0 0 0 1 0 0 0\n0 0 0 0 0 0 0 0 0 0 0 0 0 0 0 0\n0 0 0 0 0 0 0 0 0 0 0 0 0 0 0 0\n0 0 0 0 0 0 0 0 0 0 0 0 0 0 0 0\n0 0 0 0 0 0 0 0 0 0 2 0\ntree 1\nC\nend\n?read:bad 8\
|unison 1\nfunction f\nmodel regs all slots 64 nodes 2000\nanswer code\ncost 1\nbound 1\nlisting 4\nframe 0\nblock e\n{ jumpr r31 }\nsolution 124\n16 17 18 19 20 21 22 23 24 25 26 27 31 0 0 0\n0 0 0 0 0 0 0 0 0 0 0 0 0 0 0 0\n0 0 0 0 0 0 0 0 0 0 0 0 0 0 0 0\n0 0 0 0 0 0 0 0 0 0 0 0 1 0 0 0\n0 0 0 0 0 0 0 0 0 0 0 0 0 0 0 0\n0 0 0 0 0 0 0 0 0 0 0 0 0 0 0 0\n0 0 0 0 0 0 0 0 0 0 0 0 0 0 0 0\n0 0 0 0 0 0 0 0 0 0 2 0\ntree 1\nC\nend\n?read:bad 11\
|unison 1\nfunction f\nmodel regs all slots 64 nodes 2000\nanswer code\ncost 1\nbound 1\nlisting 3\nframe 0\nblock e\n{ jumpr r31 }\nsolution 124\n16 17 18 19 20 21 22 23 24 25 26 27 31 0 0 0\n0 0 0 0 0 0 0 0 0 0 0 0 0 0 0 0\n0 0 0 0 0 0 0 0 0 0 0 0 0 0 0 0\n0 0 0 0 0 0 0 0 0 0 0 0 1 0 0 0\n0 0 0 0 0 0 0 0 0 0 0 0 0 0 0 0\n0 0 0 0 0 0 0 0 0 0 0 0 0 0 0 0\n0 0 0 0 0 0 0 0 0 0 0 0 0 0 0 0\n0 0 0 0 0 0 0 0 0 0 2 0\ntree 1\nC\nend\n?same:yes\
|# What a version may have, by reports with one line in place of another.\
|unison 1\nfunction f\nmodel regs all slots 64 nodes 2000\nanswer code\ncost 1\nbound 1\nlisting 3\nframe 0\nblock e\n{ jumpr r31 }\nsolution 124\n16 17 18 19 20 21 22 23 24 25 26 27 31 0 0 0\n0 0 0 0 0 0 0 0 0 0 0 0 0 0 0 0\n0 0 0 0 0 0 0 0 0 0 0 0 0 0 0 0\n0 0 0 0 0 0 0 0 0 0 0 0 1 0 0 0\n0 0 0 0 0 0 0 0 0 0 0 0 0 0 0 0\n0 0 0 0 0 0 0 0 0 0 0 0 0 0 0 0\n0 0 0 0 0 0 0 0 0 0 0 0 0 0 0 0\n0 0 0 0 0 0 0 0 0 0 2 0\ntree 1\nC\nend\n?same:yes\
|&?line 1 unison 0:bad 1\
|&?line 1 unison 3:yes\
|&?line 1 unison 01:bad 1\
|&?line 1 unison 02:bad 1\
|&?line 1 unison 257:bad 1\
|&?line 1 unison 258:bad 1\
|&?line 1 unison:bad 1\
|&?line 1 unison :bad 1\
|&?line 1 unison 18446744073709551617:bad 1\
|&?line 1 unison 2:yes\
|&?line 3 model regs all slots 0 nodes 1:yes\
|&?line 3 model regs all slots 63 nodes 1:yes\
|&?line 3 model regs all slots 65 nodes 1:bad 3\
|&?line 3 model regs all slots 255 nodes 1:bad 3\
|&?line 3 model regs all slots 256 nodes 1:bad 3\
|&?line 3 model regs all slots 257 nodes 1:bad 3\
|&?line 3 model regs all slots 64 nodes 200000:yes\
|&?line 3 model regs all slots 64 nodes 200001:bad 3\
|&?line 8 frame 248:yes\
|&?line 8 frame 256:yes\
|&?line 8 frame 260:bad 8\
|&?line 8 frame 264:bad 8\
|&?line 8 frame 1024:bad 8\
|&?line 8 frame 1032:bad 8\
|&?line 20 tree 0:bad 20\
|&?line 20 tree 200000:bad 22\
|&?line 20 tree 200001:bad 20\
|&?line 20 tree 400000:bad 20\
|&?line 21 S:bad 21\
|&?line 21 P -:bad 21\
|unison 2\nfunction f\nmodel regs all slots 256 nodes 2000\nanswer code\ncost 1\nbound 1\nlisting 3\nframe 0\nblock e\n{ jumpr r31 }\nsolution 124\n16 17 18 19 20 21 22 23 24 25 26 27 31 0 0 0\n0 0 0 0 0 0 0 0 0 0 0 0 0 0 0 0\n0 0 0 0 0 0 0 0 0 0 0 0 0 0 0 0\n0 0 0 0 0 0 0 0 0 0 0 0 1 0 0 0\n0 0 0 0 0 0 0 0 0 0 0 0 0 0 0 0\n0 0 0 0 0 0 0 0 0 0 0 0 0 0 0 0\n0 0 0 0 0 0 0 0 0 0 0 0 0 0 0 0\n0 0 0 0 0 0 0 0 0 0 2 0\ntree 1\nC\nend\n?same:yes\
|&?line 1 unison 0:bad 1\
|&?line 1 unison 3:yes\
|&?line 1 unison 01:bad 1\
|&?line 1 unison 02:bad 1\
|&?line 1 unison 257:bad 1\
|&?line 1 unison 258:bad 1\
|&?line 1 unison:bad 1\
|&?line 1 unison :bad 1\
|&?line 1 unison 18446744073709551617:bad 1\
|&?line 1 unison 1:bad 3\
|&?line 3 model regs all slots 63 nodes 1:yes\
|&?line 3 model regs all slots 64 nodes 1:yes\
|&?line 3 model regs all slots 65 nodes 1:yes\
|&?line 3 model regs all slots 255 nodes 1:yes\
|&?line 3 model regs all slots 257 nodes 1:bad 3\
|&?line 3 model regs all slots 256 nodes 200000:yes\
|&?line 3 model regs all slots 256 nodes 200001:bad 3\
|&?line 8 frame 256:yes\
|&?line 8 frame 260:bad 8\
|&?line 8 frame 264:yes\
|&?line 8 frame 1016:yes\
|&?line 8 frame 1024:yes\
|&?line 8 frame 1028:bad 8\
|&?line 8 frame 1032:bad 8\
|&?line 20 tree 0:bad 20\
|&?line 20 tree 200000:bad 22\
|&?line 20 tree 200001:bad 22\
|&?line 20 tree 400000:bad 22\
|&?line 20 tree 400001:bad 20\
|&?line 21 S:yes\
|&?line 21 S :bad 21\
|&?line 21 P -:yes\
|&?line 21 P 0:yes\
|&?line 21 P 18446744073709551615:yes\
|&?line 21 P 18446744073709551616:bad 21\
|&?line 21 P 01:bad 21\
|&?line 21 P:bad 21\
|&?line 21 P :bad 21\
|&?line 21 P-:bad 21\
|&?line 21 P - :bad 21\
|&?line 21 P  1:bad 21\
|&?line 21 M 36 37 0:bad 21\
|# Trees of many nodes, each an open leaf.\
|unison 1\nfunction f\nmodel regs all slots 64 nodes 200000\nanswer spent\ntree 200000\n?many 199999:bad 200005|&?many 200000:yes|&?many 200001:bad 200006\
|unison 2\nfunction f\nmodel regs all slots 256 nodes 200000\nanswer spent\ntree 400000\n?many 399999:bad 400005|&?many 400000:yes|&?many 400001:bad 400006";

/// Texts of the numbers of a solution alone, each with how many they are, or its first bad line: made by another program from the rules.
static NUMBERS: &[u8] = b"# One list, with its lines broken in every way.\
|solution 0\n?numbers:good 0\
|solution 2\n1 2\n?numbers:good 2\
|solution 16\n0 0 0 0 0 0 0 0 0 0 0 0 0 0 0 0\n?numbers:good 16\
|solution 17\n0 0 0 0 0 0 0 0 0 0 0 0 0 0 0 0 0\n?numbers:bad 2\
|solution 16\n0 0 0 0 0 0 0 0\n0 0 0 0 0 0 0 0\n?numbers:bad 2\
|?numbers:bad 1\
|solution\n?numbers:bad 1\
|solution 1\n?numbers:bad 2\
|solution 0?numbers:bad 1\
|solution 01\n7\n?numbers:bad 1\
|solution 1\n-7\n?numbers:bad 2\
|solution 1\n+7\n?numbers:bad 2\
|solution 1\n 7\n?numbers:bad 2\
|solution 2\n1  2\n?numbers:bad 2\
|solution 2\n1\n2\n?numbers:bad 2\
|solution 1\n7\n\n?numbers:bad 3\
|solution 1\n7\n8\n?numbers:bad 3\
|solution 0\n\n?numbers:bad 2\
|solution 1\n4294967295\n?numbers:good 1\
|solution 1\n99999999999999999999999\n?numbers:bad 2\
|solution 4294967296\n?numbers:bad 1\
|solution 4294967295\n0 0\n?numbers:bad 2\
|solution -1\n?numbers:bad 1\
|solution 1 \n7\n?numbers:bad 1\
|solution  1\n7\n?numbers:bad 1\
|solution 1\n7\r\n?numbers:bad 2\
|solution 1\n7?numbers:bad 2\
|solution 3\n1 2 3 4\n?numbers:bad 2\
|solution 1\nx\n?numbers:bad 2\
|solution 32\n1 1 1 1 1 1 1 1 1 1 1 1 1 1 1 1\n2 2 2 2 2 2 2 2 2 2 2 2 2 2 2 2\n?numbers:good 32\
|solution 33\n1 1 1 1 1 1 1 1 1 1 1 1 1 1 1 1\n2 2 2 2 2 2 2 2 2 2 2 2 2 2 2 2\n3\n4\n?numbers:bad 5";

/// Appends the answer to an error.
fn put_error(out: &mut Vec<u8>, error: ReportError) -> Result<(), NoMemory> {
    match error {
        ReportError::NoMemory => Err(NoMemory),
        ReportError::BadReport { line } => {
            put_text(out, b"bad ")?;
            put_number(out, u64::from(line))
        }
    }
}

/// Appends whether the report of a text is printed as that text, or the first bad line.
fn put_again(alloc: Global, out: &mut Vec<u8>, text: &[u8]) -> Result<(), NoMemory> {
    match read_report(alloc, text) {
        Ok(report) => {
            let printed = print_report(alloc, &report)?;
            let word: &[u8] = if printed.as_slice() == text {
                b"yes"
            } else {
                b"no"
            };
            put_text(out, word)
        }
        Err(error) => put_error(out, error),
    }
}

/// Appends how many lines the tree of a text has, or the first bad line.
fn put_view(alloc: Global, out: &mut Vec<u8>, text: &[u8]) -> Result<(), NoMemory> {
    match read_view(alloc, text) {
        Ok(view) => put_number(out, u64::from(view.count)),
        Err(error) => put_error(out, error),
    }
}

/// Appends how many numbers a text is, or the first bad line.
fn put_numbers(alloc: Global, out: &mut Vec<u8>, text: &[u8]) -> Result<(), NoMemory> {
    match read_numbers(alloc, text) {
        Ok(solution) => {
            put_text(out, b"good ")?;
            put_number(out, solution.values.len() as u64)
        }
        Err(error) => put_error(out, error),
    }
}

/// The first lines of a text.
fn first_lines(text: &[u8], count: u32) -> &[u8] {
    let mut left = count;
    for (i, b) in text.iter().enumerate() {
        if left == 0 {
            return &text[..i];
        }
        if *b == b'\n' {
            left -= 1;
        }
    }
    text
}

/// Appends whether the report of a text is printed again, where its line of a number is another.
fn put_with_line(
    alloc: Global,
    out: &mut Vec<u8>,
    text: &[u8],
    number: u32,
    line: &[u8],
) -> Result<(), NoMemory> {
    let front = first_lines(text, number.saturating_sub(1));
    let rest = first_lines(text, number).len();
    let mut changed = Vec::new(alloc);
    put_text(&mut changed, front)?;
    put_text(&mut changed, line)?;
    put_text(&mut changed, b"\n")?;
    put_text(&mut changed, &text[rest.min(text.len())..])?;
    put_again(alloc, out, changed.as_slice())
}

/// Appends whether the report of a text is printed again, where so many open leaves and the end stand behind it.
fn put_with_leaves(
    alloc: Global,
    out: &mut Vec<u8>,
    text: &[u8],
    count: u32,
) -> Result<(), NoMemory> {
    let mut longer = Vec::new(alloc);
    put_text(&mut longer, text)?;
    for _ in 0..count {
        put_text(&mut longer, b"O\n")?;
    }
    put_text(&mut longer, b"end\n")?;
    put_again(alloc, out, longer.as_slice())
}

/// Appends the answer to a question about a text of a report.
pub(crate) fn put_of_report(
    alloc: Global,
    out: &mut Vec<u8>,
    text: &[u8],
    question: &[u8],
) -> Result<(), NoMemory> {
    match question.first() {
        Some(b's') => put_again(alloc, out, text),
        Some(b'n') => put_numbers(alloc, out, text),
        Some(b'f') => put_view(alloc, out, first_lines(text, number_at(question, 1))),
        Some(b'l') => {
            let (_, change) = cut(question, b' ');
            let (number, line) = cut(change, b' ');
            put_with_line(alloc, out, text, number_at(number, 0), line)
        }
        Some(b'm') => put_with_leaves(alloc, out, text, number_at(question, 1)),
        _ => put_view(alloc, out, text),
    }
}

#[test]
fn answers_of_reports(rt: HostRuntime) {
    let well = matches!(all_answered(rt.alloc(), About::Reports, ROWS), Ok(true));
    let numbers = matches!(all_answered(rt.alloc(), About::Reports, NUMBERS), Ok(true));
    assert!(rt; well && numbers);
}
