//! The files of twelve banks that divide by all six rules, over three classes, their least clearing
//! payments, and how the banks stand then. Dunmore and Isar cannot pay their debts even if all are
//! paid to them in full; Birk and Elbe default through their debtors.

pub const BANKS: &str = "\
name,cash,rule\n\
Alster,2000000,order\n\
Birk,1500001,equal\n\
Calder,3000000,losses\n\
Dunmore,1100001,jefferson\n\
Elbe,1020000,webster\n\
Fjord,1000000,adams\n\
Garda,2500000,order\n\
Havel,4000000,equal\n\
Isar,1000000,losses\n\
Jura,1000000,jefferson\n\
Kemi,2000000,webster\n\
Crédit Loire,5000000,adams\n\
";

pub const DEBTS: &str = "\
debtor,creditor,class,claim\n\
Alster,Calder,1,40000\n\
Alster,Garda,2,50000\n\
Alster,Crédit Loire,3,60000\n\
Birk,Calder,1,1000000\n\
Birk,Kemi,2,700000\n\
Birk,Garda,2,700000\n\
Birk,Fjord,2,500000\n\
Calder,Dunmore,1,200000\n\
Calder,Havel,2,30000\n\
Calder,Kemi,3,70000\n\
Dunmore,Alster,1,200000\n\
Dunmore,Elbe,2,900000\n\
Dunmore,Garda,2,600000\n\
Dunmore,Kemi,2,300000\n\
Dunmore,Havel,3,100000\n\
Elbe,Birk,1,800000\n\
Elbe,Garda,1,600000\n\
Elbe,Crédit Loire,1,400000\n\
Elbe,Jura,2,100000\n\
Fjord,Jura,1,20000\n\
Fjord,Alster,2,80000\n\
Fjord,Garda,3,50000\n\
Garda,Fjord,1,60000\n\
Garda,Kemi,2,40000\n\
Garda,Alster,3,50000\n\
Havel,Isar,1,100000\n\
Havel,Calder,2,30000\n\
Havel,Jura,3,20000\n\
Isar,Birk,1,700000\n\
Isar,Fjord,1,500000\n\
Isar,Alster,1,300000\n\
Jura,Dunmore,1,100000\n\
Jura,Fjord,2,25000\n\
Jura,Crédit Loire,3,25000\n\
Kemi,Havel,1,90000\n\
Kemi,Garda,2,10000\n\
Kemi,Crédit Loire,3,50000\n\
Crédit Loire,Alster,1,70000\n\
Crédit Loire,Fjord,2,30000\n\
Crédit Loire,Havel,3,50000\n\
";

pub const PAYMENTS: &str = "\
debtor,creditor,class,claim,paid\n\
Alster,Calder,1,40000,40000\n\
Alster,Garda,2,50000,50000\n\
Alster,Crédit Loire,3,60000,60000\n\
Birk,Calder,1,1000000,1000000\n\
Birk,Kemi,2,700000,643335\n\
Birk,Garda,2,700000,643334\n\
Birk,Fjord,2,500000,500000\n\
Calder,Dunmore,1,200000,200000\n\
Calder,Havel,2,30000,30000\n\
Calder,Kemi,3,70000,70000\n\
Dunmore,Alster,1,200000,200000\n\
Dunmore,Elbe,2,900000,600001\n\
Dunmore,Garda,2,600000,400000\n\
Dunmore,Kemi,2,300000,200000\n\
Dunmore,Havel,3,100000,0\n\
Elbe,Birk,1,800000,720001\n\
Elbe,Garda,1,600000,540000\n\
Elbe,Crédit Loire,1,400000,360000\n\
Elbe,Jura,2,100000,0\n\
Fjord,Jura,1,20000,20000\n\
Fjord,Alster,2,80000,80000\n\
Fjord,Garda,3,50000,50000\n\
Garda,Fjord,1,60000,60000\n\
Garda,Kemi,2,40000,40000\n\
Garda,Alster,3,50000,50000\n\
Havel,Isar,1,100000,100000\n\
Havel,Calder,2,30000,30000\n\
Havel,Jura,3,20000,20000\n\
Isar,Birk,1,700000,566667\n\
Isar,Fjord,1,500000,366667\n\
Isar,Alster,1,300000,166666\n\
Jura,Dunmore,1,100000,100000\n\
Jura,Fjord,2,25000,25000\n\
Jura,Crédit Loire,3,25000,25000\n\
Kemi,Havel,1,90000,90000\n\
Kemi,Garda,2,10000,10000\n\
Kemi,Crédit Loire,3,50000,50000\n\
Crédit Loire,Alster,1,70000,70000\n\
Crédit Loire,Fjord,2,30000,30000\n\
Crédit Loire,Havel,3,50000,50000\n\
";

pub const DEFAULTS: &str = "\
bank,estate,paid,owed,equity,state\n\
Alster,2566666,150000,150000,2416666,sound\n\
Birk,2786669,2786669,2900000,0,contagion\n\
Calder,4070000,300000,300000,3770000,sound\n\
Dunmore,1400001,1400001,2100000,0,fundamental\n\
Elbe,1620001,1620001,1900000,0,contagion\n\
Fjord,1981667,150000,150000,1831667,sound\n\
Garda,4193334,150000,150000,4043334,sound\n\
Havel,4170000,150000,150000,4020000,sound\n\
Isar,1100000,1100000,1500000,0,fundamental\n\
Jura,1040000,150000,150000,890000,sound\n\
Kemi,2953335,150000,150000,2803335,sound\n\
Crédit Loire,5495000,150000,150000,5345000,sound\n\
total,33376673,8256671,9750000,25120002,4\n\
cash,25120002\n\
";

pub const BREAKING: &str =
    "bank,cut,state\nAlster,1000,contagion\nBirk,0,contagion\nCalder,982,contagion\n\
Dunmore,0,fundamental\nElbe,0,contagion\nFjord,941,contagion\nGarda,984,contagion\n\
Havel,992,contagion\nIsar,0,fundamental\nJura,891,contagion\nKemi,983,contagion\n\
Crédit Loire,987,contagion\n";

pub const IMPACT: &str =
    "bank,cash,own,others,falls\nAlster,2000000,2000000,0,0\nBirk,1500001,0,1500001,0\n\
Calder,3000000,3000000,0,0\nDunmore,1100001,0,1100001,0\nElbe,1020000,0,1020000,0\n\
Fjord,1000000,1000000,0,0\nGarda,2500000,2500000,0,0\nHavel,4000000,4000000,0,0\n\
Isar,1000000,0,1000000,0\nJura,1000000,890000,110000,0\nKemi,2000000,2000000,0,0\n\
Crédit Loire,5000000,5000000,0,0\n\nbank,of,lost,falls\nAlster,Alster,2000000,no\n\
Birk,Fjord,404444,no\nBirk,Garda,547778,no\nBirk,Kemi,547779,no\nCalder,Calder,3000000,no\n\
Dunmore,Garda,672222,no\nDunmore,Kemi,305557,no\nDunmore,Crédit Loire,122222,no\n\
Elbe,Fjord,55555,no\nElbe,Garda,538889,no\nElbe,Kemi,198890,no\nElbe,Crédit Loire,226666,no\n\
Fjord,Fjord,1000000,no\nGarda,Garda,2500000,no\nHavel,Havel,4000000,no\nIsar,Alster,166666,no\n\
Isar,Fjord,426667,no\nIsar,Garda,203333,no\nIsar,Kemi,203334,no\nJura,Fjord,25000,no\n\
Jura,Garda,36667,no\nJura,Jura,890000,yes\nJura,Kemi,16667,no\nJura,Crédit Loire,31666,no\n\
Kemi,Kemi,2000000,no\nCrédit Loire,Crédit Loire,5000000,no\n";

pub const RESCUES: &str =
    "bank,added,short,also_saved,still_short\nBirk,113331,1,0,3\nDunmore,699999,1,1,2\n\
Elbe,279999,1,0,3\nIsar,400000,1,1,2\n\nbank,saves\nDunmore,Elbe\nIsar,Birk\n";

pub const SCENARIOS: &str = "[[scenario]]\nname = \"half of all cash is lost\"\ncut = 500\n\
[[scenario]]\nname = \"Kemi and Havel lose their cash\"\n\
[[scenario.loss]]\nbank = \"Kemi\"\namount = 2000000\n\
[[scenario.loss]]\nbank = \"Havel\"\namount = 4000000\n\
[[scenario]]\nname = \"three quarters are lost and Isar loses all\"\ncut = 750\n\
[[scenario.loss]]\nbank = \"Isar\"\namount = 1000000\n";

pub const OUTCOMES: &str = "scenario,cash,paid,outside_paid,equity,defaults,fundamental\n\
half of all cash is lost,12560002,5156114,0,12560002,4,4\n\
Kemi and Havel lose their cash,19120002,8256671,0,19120002,4,2\n\
three quarters are lost and Isar loses all,6030002,3139170,0,6030002,4,4\n\n\
bank,defaults,fundamental\nAlster,0,0\nBirk,3,2\nCalder,0,0\nDunmore,3,3\nElbe,3,2\nFjord,0,0\n\
Garda,0,0\nHavel,0,0\nIsar,3,3\nJura,0,0\nKemi,0,0\nCrédit Loire,0,0\n";

// Both ends where default keeps all that there is: least and greatest are the same here.
pub const COST_BOUNDS: &str =
    "debtor,creditor,class,claim,least,greatest\nAlster,Calder,1,40000,40000,40000\n\
Alster,Garda,2,50000,50000,50000\nAlster,Crédit Loire,3,60000,60000,60000\n\
Birk,Calder,1,1000000,1000000,1000000\nBirk,Kemi,2,700000,643335,643335\n\
Birk,Garda,2,700000,643334,643334\nBirk,Fjord,2,500000,500000,500000\n\
Calder,Dunmore,1,200000,200000,200000\nCalder,Havel,2,30000,30000,30000\n\
Calder,Kemi,3,70000,70000,70000\nDunmore,Alster,1,200000,200000,200000\n\
Dunmore,Elbe,2,900000,600001,600001\nDunmore,Garda,2,600000,400000,400000\n\
Dunmore,Kemi,2,300000,200000,200000\nDunmore,Havel,3,100000,0,0\n\
Elbe,Birk,1,800000,720001,720001\nElbe,Garda,1,600000,540000,540000\n\
Elbe,Crédit Loire,1,400000,360000,360000\nElbe,Jura,2,100000,0,0\n\
Fjord,Jura,1,20000,20000,20000\nFjord,Alster,2,80000,80000,80000\n\
Fjord,Garda,3,50000,50000,50000\nGarda,Fjord,1,60000,60000,60000\n\
Garda,Kemi,2,40000,40000,40000\nGarda,Alster,3,50000,50000,50000\n\
Havel,Isar,1,100000,100000,100000\nHavel,Calder,2,30000,30000,30000\n\
Havel,Jura,3,20000,20000,20000\nIsar,Birk,1,700000,566667,566667\n\
Isar,Fjord,1,500000,366667,366667\nIsar,Alster,1,300000,166666,166666\n\
Jura,Dunmore,1,100000,100000,100000\nJura,Fjord,2,25000,25000,25000\n\
Jura,Crédit Loire,3,25000,25000,25000\nKemi,Havel,1,90000,90000,90000\n\
Kemi,Garda,2,10000,10000,10000\nKemi,Crédit Loire,3,50000,50000,50000\n\
Crédit Loire,Alster,1,70000,70000,70000\nCrédit Loire,Fjord,2,30000,30000,30000\n\
Crédit Loire,Havel,3,50000,50000,50000\n\n\
bank,lost_at_least,equity_at_least,state_at_least,lost_at_greatest,equity_at_greatest,state_at_greatest\n\
Alster,0,2416666,sound,0,2416666,sound\nBirk,0,0,contagion,0,0,contagion\n\
Calder,0,3770000,sound,0,3770000,sound\nDunmore,0,0,fundamental,0,0,fundamental\n\
Elbe,0,0,contagion,0,0,contagion\nFjord,0,1831667,sound,0,1831667,sound\n\
Garda,0,4043334,sound,0,4043334,sound\nHavel,0,4020000,sound,0,4020000,sound\n\
Isar,0,0,fundamental,0,0,fundamental\nJura,0,890000,sound,0,890000,sound\n\
Kemi,0,2803335,sound,0,2803335,sound\nCrédit Loire,0,5345000,sound,0,5345000,sound\n";
