//! The files of fifteen banks that owe each other in a ring, so that each pays what it can on one
//! debt, and what is told of them. A plain model of such rings tells the same, which shares no code
//! with the program.

pub const BANKS: &str =
    "name,cash,rule,outside\nN01,9,order,0\nN02,0,order,2\nN03,14,order,0\nN04,3,order,0\n\
N05,25,order,6\nN06,1,order,0\nN07,0,order,3\nN08,8,order,0\nN09,30,order,0\nN10,2,order,1\n\
N11,0,order,0\nN12,11,order,0\nN13,5,order,4\nN14,0,order,0\nN15,17,order,2\n";

// The same banks with less cash, so that thirteen of them are in default.
pub const POOR_BANKS: &str =
    "name,cash,rule,outside\nN01,2,order,0\nN02,0,order,2\nN03,4,order,0\nN04,0,order,0\n\
N05,7,order,6\nN06,0,order,0\nN07,0,order,3\nN08,2,order,0\nN09,9,order,0\nN10,0,order,1\n\
N11,0,order,0\nN12,3,order,0\nN13,1,order,4\nN14,0,order,0\nN15,5,order,2\n";

pub const DEBTS: &str =
    "debtor,creditor,class,claim\nN01,N02,1,12\nN02,N03,1,10\nN03,N04,1,20\nN04,N05,1,21\n\
N05,N06,1,30\nN06,N07,1,31\nN07,N08,1,28\nN08,N09,1,33\nN09,N10,1,40\nN10,N11,1,38\n\
N11,N12,1,35\nN12,N13,1,41\nN13,N14,1,44\nN14,N15,1,43\nN15,N01,1,50\n";

// Eleven scenarios, each of a deeper cut than the one before, and of a loss of another bank.
pub const SCENARIOS: &str = "scenario = [{name=\"S1\",cut=0,loss=[{bank=\"N01\",amount=5}]},\
{name=\"S2\",cut=90,loss=[{bank=\"N02\",amount=5}]},\
{name=\"S3\",cut=180,loss=[{bank=\"N03\",amount=5}]},\
{name=\"S4\",cut=270,loss=[{bank=\"N04\",amount=5}]},\
{name=\"S5\",cut=360,loss=[{bank=\"N05\",amount=5}]},\
{name=\"S6\",cut=450,loss=[{bank=\"N06\",amount=5}]},\
{name=\"S7\",cut=540,loss=[{bank=\"N07\",amount=5}]},\
{name=\"S8\",cut=630,loss=[{bank=\"N08\",amount=5}]},\
{name=\"S9\",cut=720,loss=[{bank=\"N09\",amount=5}]},\
{name=\"S10\",cut=810,loss=[{bank=\"N10\",amount=5}]},\
{name=\"S11\",cut=900,loss=[{bank=\"N11\",amount=5}]}]";

pub const BREAKING: &str =
    "bank,cut,state\nN01,900,contagion\nN02,900,contagion\nN03,358,fundamental\nN04,429,contagion\n\
N05,429,contagion\nN06,429,contagion\nN07,429,contagion\nN08,429,contagion\nN09,567,contagion\n\
N10,600,contagion\nN11,634,contagion\nN12,546,fundamental\nN13,0,fundamental\nN14,0,contagion\n\
N15,400,contagion\n";

pub const IMPACT: &str =
    "bank,cash,own,others,falls\nN01,9,9,0,0\nN02,0,0,0,0\nN03,14,4,10,1\nN04,3,2,1,0\n\
N05,25,10,15,3\nN06,1,0,1,1\nN07,0,0,0,0\nN08,8,3,5,0\nN09,30,23,7,2\nN10,2,2,0,0\nN11,0,0,0,0\n\
N12,11,5,6,0\nN13,5,0,5,0\nN14,0,0,0,0\nN15,17,7,10,0\n\nbank,of,lost,falls\nN01,N01,9,no\n\
N03,N03,4,yes\nN03,N04,2,yes\nN03,N05,8,no\nN04,N04,2,yes\nN04,N05,1,no\nN05,N05,10,yes\n\
N05,N06,0,yes\nN05,N07,0,yes\nN05,N08,3,yes\nN05,N09,12,no\nN06,N06,0,yes\nN06,N07,0,yes\n\
N06,N08,1,no\nN08,N08,3,yes\nN08,N09,5,no\nN09,N09,23,yes\nN09,N10,3,yes\nN09,N11,3,yes\n\
N09,N12,1,no\nN10,N10,2,no\nN12,N12,5,yes\nN12,N15,6,no\nN13,N15,5,no\nN15,N01,10,no\n\
N15,N15,7,yes\n";

pub const POOR_RESCUES: &str =
    "bank,added,short,also_saved,still_short\nN03,6,1,0,12\nN04,7,1,0,12\nN05,15,1,1,11\n\
N06,16,1,3,9\nN07,16,1,2,10\nN08,19,1,3,9\nN09,17,1,2,10\nN10,16,1,1,11\nN11,13,1,0,12\n\
N12,16,1,0,12\nN13,22,1,1,11\nN14,21,1,0,12\nN15,25,1,0,12\n\nbank,saves\nN05,N11\nN06,N07\n\
N06,N10\nN06,N11\nN07,N10\nN07,N11\nN08,N09\nN08,N10\nN08,N11\nN09,N10\nN09,N11\nN10,N11\n\
N13,N14\n";

pub const OUTCOMES: &str =
    "scenario,cash,paid,outside_paid,equity,defaults,fundamental\nS1,120,473,18,102,2,1\n\
S2,119,473,18,101,2,1\nS3,103,469,18,85,4,2\nS4,94,470,18,76,3,2\nS5,80,455,18,62,7,3\n\
S6,73,453,18,55,9,4\nS7,63,439,18,45,9,5\nS8,50,384,18,32,13,6\nS9,35,275,18,17,13,7\n\
S10,28,232,18,10,13,7\nS11,18,48,18,0,15,7\n\nbank,defaults,fundamental\nN01,1,0\nN02,1,0\n\
N03,8,8\nN04,8,1\nN05,7,7\nN06,7,1\nN07,7,0\nN08,7,5\nN09,4,3\nN10,4,0\nN11,4,0\nN12,4,4\n\
N13,11,11\nN14,11,0\nN15,6,5\n";
