// A plan that is accepted, and cases: each writes one text in place of another, and says what comes of it.

pub const PLAN: &str =
    "Version 1.0; TestPlan Bench;\nBinDefs {\n BinGroup Ends { Bin Good 0: \"\"; Bin Bad 1: \"\"; }\n BinGroup Crates { Bin Shelf 10: \"\", Good; Bin Repair 11: \"\", Bad; }\n BinGroup Causes { LeafBin AllGood 20: \"\", Shelf;\n  LeafBin ProbeDead 21: \"probe\", Repair; }\n SortBinGroup = Crates; }\nCounters { Passed, Failed }\nTest Reading ProbeTest { Limit = 7; }\nTest Reading PumpTest { Limit = 3; }\nFlow Probe { FlowItem Low ProbeTest {\n Result 0 { Property PassFail = \"Pass\"; IncrementCounters Passed; Return 0; }\n Result 1, 2 { Property PassFail = \"Fail\"; IncrementCounters Failed;\n  SetBin Causes.ProbeDead; Return 1; } } }\nFlow Main { FlowItem First Probe {\n Result 0 { GoTo Second; } Result 1 { Return 1; } }\n FlowItem Second PumpTest {\n Result 0 { IncrementCounters Passed; SetBin Causes.AllGood; Return 0; }\n Result 3 { GoTo First; } } }\nFlowDefs { MainFlow = Main; }\n";

// Cases begin with `~`; old text, new text and outcome are parted by `|`.
pub const CASES: &str = "\
    ~Version|Version|accepted Bench 3 6 2 2 2 3 6\
    ~Version 1.0;|Version 1.00;|refused 10 at 8 by plan rules\
    ~Version 1.0;|Version 1;|refused 6 at 8 by grammar\
    ~Version 1.0;|version 1.0;|refused 6 at 0 by grammar\
    ~TestPlan Bench;|TestPlan Test;|refused 6 at 22 by grammar\
    ~TestPlan Bench;|TestPlan Bench|refused 6 at 28 by grammar\
    ~BinGroup Ends {|BinGroup Ends { }|refused 6 at 56 by grammar\
    ~BinGroup Crates|BinGroup Ends|refused 7 at 99 by plan rules\
    ~Bin Bad 1|Bin Good 1|refused 7 at 76 by plan rules\
    ~Bin Bad 1|Bin Bad 0|refused 11 at 80 by plan rules\
    ~Bin Bad 1|Bin Bad 65535|accepted Bench 3 6 2 2 2 3 6\
    ~Bin Bad 1|Bin Bad 65536|refused 10 at 80 by plan rules\
    ~Bin Bad 1: \"\"|Bin Bad 1 \"\"|refused 6 at 82 by grammar\
    ~Bin Shelf 10: \"\", Good;|Bin Shelf 10: \"\", Shelf;|refused 8 at 126 by plan rules\
    ~Bin Shelf 10: \"\", Good;|Bin Shelf 10: \"\", Repair;|refused 8 at 126 by plan rules\
    ~Bin Shelf 10: \"\", Good;|Bin Shelf 10: \"\"= Good;|refused 6 at 124 by grammar\
    ~LeafBin ProbeDead 21: \"probe\", Repair;|LeafBin ProbeDead 21: \"probe\", AllGood;|refused 9 at 241 by plan rules\
    ~AllGood 20: \"\", Shelf;|AllGood 20: \"\";|refused 15 at 185 by plan rules\
    ~AllGood 20: \"\", Shelf;|AllGood 20: \"\", Good;|refused 15 at 185 by plan rules\
    ~SortBinGroup = Crates;|SortBinGroup = Causes;|accepted Bench 3 6 2 2 2 3 6\
    ~SortBinGroup = Crates;|SortBinGroup = Ends;|accepted Bench 3 6 2 2 2 3 6\
    ~SortBinGroup = Crates;|SortBinGroup = Crate;|refused 8 at 267 by plan rules\
    ~SortBinGroup = Crates;|SortBinGroup Crates;|refused 6 at 265 by grammar\
    ~LeafBin AllGood 20|Bin AllGood 20|refused 9 at 771 by plan rules\
    ~Counters { Passed, Failed }\n||refused 8 at 448 by plan rules\
    ~Passed, Failed }|Passed, Passed }|refused 7 at 296 by plan rules\
    ~Passed, Failed }|Passed Failed }|refused 6 at 295 by grammar\
    ~Passed, Failed }|Passed, Failed, }|refused 6 at 304 by grammar\
    ~Counters { Passed, Failed }|Counters { }|refused 6 at 288 by grammar\
    ~Counters { Passed, Failed }|Counters { Passed, Failed } Counters { A }|refused 6 at 305 by grammar\
    ~Test Reading PumpTest|Test Reading ProbeTest|refused 7 at 356 by plan rules\
    ~{ Limit = 7; }|{ }|refused 6 at 330 by grammar\
    ~{ Limit = 7; }|{ Limit = \"a\"; Unit = mV; Low = -32768; }|accepted Bench 3 6 2 2 2 3 6\
    ~{ Limit = 7; }|{ Low = -32769; }|refused 10 at 337 by plan rules\
    ~{ Limit = 7; }|{ Low = 32768; }|refused 10 at 336 by plan rules\
    ~{ Limit = 7; }|{ Low = 1.5; }|refused 6 at 336 by grammar\
    ~{ Limit = 7; }|{ Low = - 7; High = 32767; }|accepted Bench 3 6 2 2 2 3 6\
    ~Flow Probe {|Flow PumpTest {|refused 7 at 385 by plan rules\
    ~Flow Main {|Flow Probe {|refused 7 at 613 by plan rules\
    ~Flow Probe { FlowItem Low|Flow Probe { } Flow X { FlowItem Low|refused 6 at 393 by grammar\
    ~FlowItem Second PumpTest|FlowItem First PumpTest|refused 7 at 705 by plan rules\
    ~FlowItem Low ProbeTest|FlowItem Low Probe|refused 8 at 406 by plan rules\
    ~FlowItem Low ProbeTest|FlowItem Low Main|refused 8 at 406 by plan rules\
    ~FlowItem Low ProbeTest|FlowItem Low Nothing|refused 8 at 406 by plan rules\
    ~Result 1, 2 {|Result 1, 1 {|refused 11 at 507 by plan rules\
    ~Result 1, 2 {|Result 1, 0 {|refused 11 at 507 by plan rules\
    ~Result 1, 2 {|Result 1, -0, 0 {|refused 11 at 508 by plan rules\
    ~Result 1, 2 {|Result 1, -32768 {|accepted Bench 3 6 2 2 2 3 6\
    ~Result 1, 2 {|Result 1, -32769 {|refused 10 at 508 by plan rules\
    ~Result 1, 2 {|Result 32767, 1 {|accepted Bench 3 6 2 2 2 3 6\
    ~Result 1, 2 {|Result 32768 {|refused 10 at 504 by plan rules\
    ~Result 1, 2 {|Result 1 2 {|refused 6 at 506 by grammar\
    ~Result 1, 2 {|Result - {|refused 6 at 506 by grammar\
    ~PassFail = \"Pass\"|PassFail = \"pass\"|refused 10 at 450 by plan rules\
    ~Property PassFail = \"Fail\"; IncrementCounters Failed;|IncrementCounters Failed; Property PassFail = \"Fail\";|refused 6 at 537 by grammar\
    ~IncrementCounters Failed;|IncrementCounters Failed, Failed;|refused 11 at 565 by plan rules\
    ~IncrementCounters Failed;|IncrementCounters Failed, Passed;|accepted Bench 3 6 2 2 2 3 6\
    ~IncrementCounters Failed;|IncrementCounters Broken;|refused 8 at 557 by plan rules\
    ~IncrementCounters Failed;|IncrementCounters ;|refused 6 at 557 by grammar\
    ~SetBin Causes.ProbeDead|SetBin Cause.ProbeDead|refused 8 at 574 by plan rules\
    ~SetBin Causes.ProbeDead|SetBin Causes.Dead|refused 8 at 581 by plan rules\
    ~SetBin Causes.ProbeDead|SetBin Crates.ProbeDead|refused 9 at 581 by plan rules\
    ~SetBin Causes.ProbeDead|SetBin Crates.Shelf|refused 9 at 581 by plan rules\
    ~SetBin Causes.ProbeDead|SetBin Causes ProbeDead|refused 6 at 581 by grammar\
    ~GoTo Second;|GoTo Third;|refused 8 at 660 by plan rules\
    ~GoTo Second;|GoTo Low;|refused 8 at 660 by plan rules\
    ~GoTo Second;|Return 40000;|refused 10 at 662 by plan rules\
    ~GoTo Second;|Return -5;|accepted Bench 3 6 2 2 2 3 6\
    ~GoTo First;|GoTo First; GoTo First;|refused 6 at 820 by grammar\
    ~ Result 1 { Return 1; }||refused 13 at 629 by plan rules\
    ~ Result 1 { Return 1; }| Result 2 { Return 1; }|refused 13 at 629 by plan rules\
    ~Result 0 { GoTo Second; }|Result 0 { GoTo Nowhere; }|refused 8 at 660 by plan rules\
    ~FlowDefs {|Test Reading Late { A = 1; } FlowDefs {|refused 6 at 826 by grammar\
    ~MainFlow = Main;|MainFlow = Probe;|accepted Bench 3 6 2 2 2 3 6\
    ~MainFlow = Main;|MainFlow = PumpTest;|refused 9 at 848 by plan rules\
    ~MainFlow = Main;|MainFlow = Mine;|refused 8 at 848 by plan rules\
    ~FlowDefs { MainFlow = Main; }|FlowDefs { MainFlow = Main; } ;|refused 6 at 856 by grammar\
    ~FlowDefs { MainFlow = Main; }\n|FlowDefs { MainFlow = Main;|refused 6 at 853 by grammar\
    ~Flow Main {|Flow D0 { FlowItem A ProbeTest { Result 0 { Return 0; } } } Flow D1 { FlowItem A D0 { Result 0 { Return 0; } } } Flow D2 { FlowItem A D1 { Result 0 { Return 0; } } } Flow D3 { FlowItem A D2 { Result 0 { Return 0; } } } Flow D4 { FlowItem A D3 { Result 0 { Return 0; } } } Flow D5 { FlowItem A D4 { Result 0 { Return 0; } } } Flow D6 { FlowItem A D5 { Result 0 { Return 0; } } } Flow D7 { FlowItem A D6 { Result 0 { Return 0; } } } Flow Main {|accepted Bench 3 6 2 2 10 11 14\
    ~Flow Main {|Flow D0 { FlowItem A ProbeTest { Result 0 { Return 0; } } } Flow D1 { FlowItem A D0 { Result 0 { Return 0; } } } Flow D2 { FlowItem A D1 { Result 0 { Return 0; } } } Flow D3 { FlowItem A D2 { Result 0 { Return 0; } } } Flow D4 { FlowItem A D3 { Result 0 { Return 0; } } } Flow D5 { FlowItem A D4 { Result 0 { Return 0; } } } Flow D6 { FlowItem A D5 { Result 0 { Return 0; } } } Flow D7 { FlowItem A D6 { Result 0 { Return 0; } } } Flow D8 { FlowItem A D7 { Result 0 { Return 0; } } } Flow Main {|refused 14 at 1060 by plan rules\
    ~Flow Main {|Flow Main @ {|refused 3 at 618 by token reader\
    ~\"probe\"|\"pro\tbe\"|refused 3 at 236 by token reader\
    ~\"probe\"|\"probe|refused 5 at 232 by token reader\
    ~FlowItem First Probe|FlowItem a23456789_123456789_123456789_12 Probe|refused 8 at 840 by plan rules\
    ~FlowItem First Probe|FlowItem a23456789_123456789_123456789_123 Probe|refused 4 at 629 by token reader\
    ~Counters { Passed, Failed }|Counters { Passed, Failed, C0, C1, C2, C3, C4, C5, C6, C7, C8, C9, C10, C11, C12, C13, C14, C15, C16, C17, C18, C19, C20, C21, C22, C23, C24, C25, C26, C27, C28, C29 }|accepted Bench 3 6 32 2 2 3 6\
    ~Counters { Passed, Failed }|Counters { Passed, Failed, C0, C1, C2, C3, C4, C5, C6, C7, C8, C9, C10, C11, C12, C13, C14, C15, C16, C17, C18, C19, C20, C21, C22, C23, C24, C25, C26, C27, C28, C29, C30 }|refused 12 at 444 by plan rules\
    ~ SortBinGroup| BinGroup G0 { Bin X0 1: \"\"; } BinGroup G1 { Bin X1 1: \"\"; } BinGroup G2 { Bin X2 1: \"\"; } BinGroup G3 { Bin X3 1: \"\"; } BinGroup G4 { Bin X4 1: \"\"; } BinGroup G5 { Bin X5 1: \"\"; } BinGroup G6 { Bin X6 1: \"\"; } BinGroup G7 { Bin X7 1: \"\"; } BinGroup G8 { Bin X8 1: \"\"; } BinGroup G9 { Bin X9 1: \"\"; } BinGroup G10 { Bin X10 1: \"\"; } BinGroup G11 { Bin X11 1: \"\"; } BinGroup G12 { Bin X12 1: \"\"; } SortBinGroup|accepted Bench 16 19 2 2 2 3 6\
    ~ SortBinGroup| BinGroup G0 { Bin X0 1: \"\"; } BinGroup G1 { Bin X1 1: \"\"; } BinGroup G2 { Bin X2 1: \"\"; } BinGroup G3 { Bin X3 1: \"\"; } BinGroup G4 { Bin X4 1: \"\"; } BinGroup G5 { Bin X5 1: \"\"; } BinGroup G6 { Bin X6 1: \"\"; } BinGroup G7 { Bin X7 1: \"\"; } BinGroup G8 { Bin X8 1: \"\"; } BinGroup G9 { Bin X9 1: \"\"; } BinGroup G10 { Bin X10 1: \"\"; } BinGroup G11 { Bin X11 1: \"\"; } BinGroup G12 { Bin X12 1: \"\"; } BinGroup G13 { Bin X13 1: \"\"; } SortBinGroup|refused 12 at 648 by plan rules\
";
